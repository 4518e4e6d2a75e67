ghost use Rattle.std.specs.Prelude.{◌≡◌, ℕ, ◌<◌, ◌≤◌, ◌+◌, Ok, Err, Some, ◌∷◌, [], ◌++◌, IfOk, IsOk, OnErr, string_bytes, string_capacity, string_len};
ghost use Rattle.ga_word.specs.Hex.{hex_digits};
ghost use Rattle.ga_word.specs.Text.{text_of_words, words_of_text};
ghost use Rattle.ga_word.specs.declared.text.WordsError.TheVariants.{BadWord, Memory};

use crate::hex::{hex5, read_hex5};
use crate::tokens::Tokens;
use crate::word::Word18;
use std::alloc::{AllocError, AllocFailed, Global};
use std::str;
use thiserror::Error;

/// Why a text was refused by [`read_words`].
#[derive(Debug, PartialEq, Eq, Drop, Error)]
pub enum WordsError {
    /// The token at this index, counted from 0, is not five hex digits of a number up to 3FFFF.
    #[error("{0} BadWord")]
    BadWord(usize),
    /// Memory ran out.
    #[error("memory")]
    Memory,
}

impl<T: Drop> From<AllocFailed<T>> for WordsError {
    ghost from_gives = { λ _ error. error ≡ Memory };

    fn from(_failed: AllocFailed<T>) -> WordsError {
        WordsError::Memory
    }
}

/// The text of words: each as five hex digits in upper case, eight on a line with one space
/// between, each line ended by LF. No words are the empty text. Fails only when out of memory.
pub fn words_text(alloc: Global, words: &[Word18]) -> Result<String, AllocError>
    ensures { IfOk result (λ text. string_bytes text ≡ text_of_words words.now) }
{
    let mut text = String::new(alloc);
    push_words(&mut text, words)?;
    Ok(text)
}

/// Adds the text of words to a text, as [`words_text`] gives it. Fails only when out of memory, and
/// then the text is as it was.
pub fn push_words(text: &mut String, words: &[Word18]) -> Result<(), AllocError>
    ensures text { IfOk result (λ done. string_bytes text.new ≡ string_bytes text.old
        ++ text_of_words words.now) }
    ensures unchanged { OnErr result (string_bytes text.new ≡ string_bytes text.old) }
{
    text.reserve(6 * words.len())?;
    for (place, word) in words.iter().enumerate() {
        let ends_line = place % 8 == 7 || place + 1 == words.len();
        push_word(text, *word, if ends_line { b'\n' } else { b' ' })?;
    }
    Ok(())
}

/// Adds the digits of a word, and the ASCII byte behind them. It allocates nothing if there is room
/// for six bytes.
fn push_word(text: &mut String, word: Word18, end: u8) -> Result<(), AllocError>
    requires { end < 128 }
    ensures room { string_len text.old + 6 ≤ string_capacity text.old → IsOk result }
    ensures capacity { string_capacity text.old ≤ string_capacity text.new }
    ensures len { IfOk result (λ done. string_len text.new ≡ string_len text.old + 6) }
    ensures text { IfOk result (λ done. string_bytes text.new ≡ string_bytes text.old
        ++ hex_digits 5 word ++ end ∷ []) }
{
    let [first, second, third, fourth, fifth] = hex5(word);
    let digits = [first, second, third, fourth, fifth, end];
    text.push_str(unsafe { str::from_utf8_unchecked(&digits) })?;
    Ok(())
}

/// The words of a text: tokens of five hex digits of either case, between spaces, tabs, CR and LF.
///
/// The first token that writes no word is refused as [`WordsError::BadWord`] with its index, and
/// [`WordsError::Memory`] comes when out of memory.
pub fn read_words(alloc: Global, text: &str) -> Result<Vec<Word18>, WordsError>
    ensures words { IfOk result (λ words. words_of_text text.now ≡ Ok words.items) }
    ensures bad_word { (index : ℕ) → result ≡ Err (BadWord index) → words_of_text text.now
        ≡ Err index }
{
    let mut words = Vec::new(alloc);
    for token in Tokens::new(text.as_bytes()) {
        let Some(word) = read_hex5(token) else {
            return Err(WordsError::BadWord(words.len()));
        };
        words.push(word)?;
    }
    Ok(words)
}
