//! Which words are labels.
ghost use Rattle.std.specs.Prelude.{◌≡◌, IfOk, map};
ghost use Rattle.std.specs.List.{list_all};
ghost use Rattle.ga_pack.specs.Model.Token as plain;
ghost use Rattle.ga_expand.specs.Constants.{is_among};
ghost use Rattle.ga_hints.specs.Hints.{is_label, label_of};

use crate::names::language_words;
use crate::nearest::is_among;
use std::alloc::{AllocError, Global};

/// Whether one of these tokens defines a word as a label: the word is a name, and none of the
/// language.
pub(crate) fn is_label(alloc: Global, word: &str, tokens: &[&str]) -> Result<bool, AllocError>
    ensures { IfOk result (λ is. is ≡ is_label (map (λ token. token.now) tokens.now) word.now) }
{
    if !is_name(word) || is_among(&language_words(alloc)?, word) {
        return Ok(false);
    }
    has_colon(alloc, word, tokens)
}

/// Whether a word with `:` behind it is one of these tokens.
fn has_colon(alloc: Global, word: &str, tokens: &[&str]) -> Result<bool, AllocError>
    ensures { IfOk result (λ has. has
        ≡ is_among (map (λ token. token.now) tokens.now) (label_of word.now)) }
{
    let mut label = String::from_str(alloc, word)?;
    label.push(':')?;
    Ok(is_among(tokens, label.as_str()))
}

/// Whether a word is one to sixteen letters, digits and `_`, the first no digit.
fn is_name(word: &str) -> bool
    ensures { result ≡ plain.is_name word.now }
{
    match word.as_bytes().split_first() {
        Some((first, rest)) => {
            is_letter(*first) && rest.len() < 16 && are_letters_or_digits(rest)
        }
        None => false,
    }
}

fn are_letters_or_digits(bytes: &[u8]) -> bool
    ensures { result ≡ list_all plain.is_letter_or_digit bytes.now }
{
    bytes.iter().all(|byte| is_letter_or_digit(*byte))
}

fn is_letter_or_digit(byte: u8) -> bool
    ensures { result ≡ plain.is_letter_or_digit byte }
{
    is_letter(byte) || byte.is_ascii_digit()
}

/// An ASCII letter or `_`.
fn is_letter(byte: u8) -> bool
    ensures { result ≡ plain.is_letter byte }
{
    matches!(byte, b'A'..=b'Z' | b'a'..=b'z' | b'_')
}
