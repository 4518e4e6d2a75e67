ghost use Rattle.std.specs.Prelude.{◌≡◌, ◌≤◌, IfOk, option_map, vec_len};
ghost use Rattle.ga_input.specs.Fault.{Gives};
ghost use Rattle.ga_input.specs.Text.{as_text, text_in, words_in};

use crate::fault::{InputFault, ServeError, WordsFault};
use ga_word::{Word18, read_words};
use std::alloc::Global;
use std::str;

/// The most words that a node's memory holds.
const WORDS_LIMIT: usize = 64;

/// The input as text.
pub fn input_text(input: &[u8]) -> Result<&str, ServeError>
    ensures { Gives (λ text. text.now) result (text_in input.now) }
{
    match str::from_utf8(input) {
        Ok(text) => Ok(text),
        Err(_) => Err(ServeError::Input(InputFault::BadText)),
    }
}

/// The input as text, if it is one.
pub fn as_text(input: &[u8]) -> Option<&str>
    ensures { option_map (λ text. text.now) result ≡ as_text input.now }
{
    match str::from_utf8(input) {
        Ok(text) => Some(text),
        Err(_) => None,
    }
}

/// The words of an input, 1 to 64.
#[tactic(auto, unfolding(crate::specs::Text::words_in))]
pub fn words_of(alloc: Global, input: &[u8]) -> Result<Vec<Word18>, ServeError>
    ensures words { Gives (λ words. words.items) result (words_in input.now) }
    ensures count { IfOk result (λ words. vec_len words ≤ 64) }
{
    let words = read_words(alloc, input_text(input)?)?;
    if words.is_empty() {
        return Err(ServeError::Words(WordsFault::Empty));
    }
    if words.len() > WORDS_LIMIT {
        return Err(ServeError::Words(WordsFault::TooLong));
    }
    Ok(words)
}
