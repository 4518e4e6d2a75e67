//! Calls of words and of source text.
use crate::told::Told;
use ga_expand::expand;
use ga_source::{Place, tokens};
use ga_word::{Word18, push_words, words_text};
use std::alloc::{AllocError, Global};

const TEXT: &str = "node 708 main: right a! \\ the port\n again: $12 ! jump again\n";

/// Twenty words, no two alike.
fn some_words(alloc: Global) -> Result<Vec<Word18>, AllocError> {
    let mut words = Vec::with_capacity(alloc, 20)?;
    for number in 0..20u32 {
        words.push(Word18::new(number * 13_000).unwrap_or_default())?;
    }
    Ok(words)
}

/// The text of borrowed words.
pub fn words_text_told(alloc: Global) -> Result<Told, AllocError> {
    let words = some_words(alloc)?;
    let same = some_words(alloc)?;
    let is_answered = words_text(alloc, &words).is_ok();
    Ok(Told::answered(is_answered, words == same))
}

/// The text of words is added to a text.
pub fn push_words_told(alloc: Global) -> Result<Told, AllocError> {
    let words = some_words(alloc)?;
    let mut text = String::from_str(alloc, TEXT)?;
    let is_answered = push_words(&mut text, &words).is_ok();
    Ok(Told::answered(is_answered, text.as_str() == TEXT))
}

/// The tokens of a borrowed text.
pub fn tokens_told(alloc: Global) -> Result<Told, AllocError> {
    let text = String::from_str(alloc, TEXT)?;
    let is_answered = tokens(alloc, &text).is_ok();
    Ok(Told::answered(is_answered, text.as_str() == TEXT))
}

/// The place where a token of a borrowed expansion was written.
pub fn origin_told(alloc: Global) -> Result<Told, AllocError> {
    let Ok(expansion) = expand(alloc, TEXT) else {
        return Err(AllocError);
    };
    let text = String::from_str(alloc, &expansion.text)?;
    let first = Place { line: 1, column: 1 };
    let is_answered = expansion.origin(alloc, first).is_ok();
    Ok(Told::answered(is_answered, expansion.text == text))
}
