//! What may help with a fault of the text that a text expands to.
ghost use Rattle.std.specs.Prelude.{◌≡◌, IfOk, map, option_map};
ghost use Rattle.ga_expand.specs.Constants.{is_among, words_of_definitions};
ghost use Rattle.ga_hints.specs.Hints.{bad_token_hint, body_hint, hint_of, nearest_hint, source_hint};
ghost use Rattle.ga_hints.specs.Names.{first_words, is_bracketed, is_known, last_of};

use crate::hint_kind::Hint;
use crate::labels::is_label;
use crate::names::{
    begins_definition, is_behind_use, is_body, names_behind, names_for_source, place, word_at,
    words_before, words_of,
};
use crate::nearest::{is_among, is_recased, nearest_hint};
use ga_expand::is_expression;
use ga_faults::part_at;
use ga_source::{SourceError, SourceErrorKind};
use std::alloc::{AllocError, Global};

/// What may help with a fault of the text that a text expands to.
pub(crate) fn source_hint(
    alloc: Global,
    text: &str,
    error: SourceError,
) -> Result<Option<Hint>, AllocError>
    ensures { IfOk result (λ hint. option_map hint_of hint ≡ source_hint text.now error) }
{
    let place = place(error.line, error.column);
    let Some(word) = word_at(alloc, text, place)? else {
        return Ok(None);
    };
    match error.kind {
        SourceErrorKind::BadToken => {
            let all = words_of(alloc, text)?;
            let before = words_before(alloc, text, place)?;
            let part = part_at(alloc, text, error.line)?;
            let tokens = words_of(alloc, part.as_str())?;
            bad_token_hint(alloc, word, &all, &before, &tokens)
        }
        SourceErrorKind::NoNode => nearest_first_word(alloc, word),
        _ => Ok(None),
    }
}

/// What may help with a word that means nothing, behind some tokens of a text and in a part with
/// these tokens.
fn bad_token_hint(
    alloc: Global,
    word: &str,
    all: &[&str],
    before: &[&str],
    tokens: &[&str],
) -> Result<Option<Hint>, AllocError>
    ensures { IfOk result (λ hint. option_map hint_of hint
        ≡ bad_token_hint (map (λ token. token.now) all.now) (map (λ token. token.now) before.now)
        (map (λ token. token.now) tokens.now) word.now) }
{
    if is_body(alloc, word, tokens)? {
        return body_hint(alloc, word, before);
    }
    if is_label(alloc, word, tokens)? {
        return Ok(Some(Hint::Label(String::from_str(alloc, word)?)));
    }
    if is_expression(&names_behind(alloc, tokens, "const")?, word) {
        return Ok(Some(Hint::Expression));
    }
    if begins_definition(word) {
        return Ok(Some(Hint::Definition));
    }
    if is_known(alloc, word, all)? {
        return Ok(None);
    }
    nearest_hint(alloc, word, &names_for_source(alloc, tokens)?)
}

/// What may help with the name of a body behind these tokens.
fn body_hint(alloc: Global, word: &str, before: &[&str]) -> Result<Option<Hint>, AllocError>
    ensures { IfOk result (λ hint. option_map hint_of hint
        ≡ body_hint (last_of (map (λ token. token.now) before.now)) word.now) }
{
    if is_behind_use(before) {
        return Ok(None);
    }
    Ok(Some(Hint::Body(String::from_str(alloc, word)?)))
}

/// Whether a word means nothing where it stands, but isn't meant as another one in a text with
/// these tokens.
fn is_known(alloc: Global, word: &str, all: &[&str]) -> Result<bool, AllocError>
    ensures { IfOk result (λ is. is ≡ is_known (map (λ token. token.now) all.now) word.now) }
{
    if is_of_definitions(word) || is_bracketed(word) || is_body(alloc, word, all)? {
        return Ok(true);
    }
    Ok(is_among(&names_behind(alloc, all, "const")?, word))
}

/// Whether a word is an opcode that stands only in brackets, but for the case of its letters.
fn is_bracketed(word: &str) -> bool
    ensures { result ≡ is_bracketed word.now }
{
    is_recased(word, "@p") || is_recased(word, "!p")
}

/// Whether a word is one of definitions, which stand before all sections.
fn is_of_definitions(word: &str) -> bool
    ensures { result ≡ is_among words_of_definitions word.now }
{
    is_among(&["const", "body", "end", "use", "include"], word)
}

/// The nearest of the words with which a text may begin, if one is near.
fn nearest_first_word(alloc: Global, word: &str) -> Result<Option<Hint>, AllocError>
    ensures { IfOk result (λ hint. option_map hint_of hint ≡ nearest_hint first_words word.now) }
{
    nearest_hint(alloc, word, &["const", "body", "include", "node"])
}
