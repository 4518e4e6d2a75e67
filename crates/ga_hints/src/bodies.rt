//! The first body of a text that has no `end`.
ghost use Rattle.std.specs.Prelude.{◌≡◌, IfOk, map, option_map, slice_get};
ghost use Rattle.std.specs.Option.{option_and_then};
ghost use Rattle.ga_pack.specs.Model.Text.{texts_of};
ghost use Rattle.ga_hints.specs.Bodies.{first_open, has_end};
ghost use Rattle.ga_hints.specs.Hints.{bodies_at, hint_of, open_body_hint};

use crate::hint_kind::Hint;
use crate::names::{names_behind, words_of};
use crate::nearest::is_among;
use ga_expand::ExpandErrorKind;
use std::alloc::{AllocError, Global};

/// The first body of a text that has no `end`, if it may help with a fault of a kind behind some of
/// the text's tokens.
pub(crate) fn open_body_hint(
    alloc: Global,
    text: &str,
    before: &[&str],
    kind: ExpandErrorKind,
) -> Result<Option<Hint>, AllocError>
    ensures { IfOk result (λ hint. option_map hint_of hint
        ≡ open_body_hint kind (texts_of text.now) (map (λ word. word.now) before.now)) }
{
    let tokens = words_of(alloc, text)?;
    let names = bodies_at(alloc, kind, &tokens, before)?;
    match open_body(&names, &tokens) {
        Some(name) => Ok(Some(Hint::OpenBody(String::from_str(alloc, name)?))),
        None => Ok(None),
    }
}

/// The bodies of a text with these tokens that may have no `end` at a fault of a kind.
fn bodies_at<'a>(
    alloc: Global,
    kind: ExpandErrorKind,
    tokens: &[&'a str],
    before: &[&'a str],
) -> Result<Vec<&'a str>, AllocError>
    ensures { IfOk result (λ names. map (λ name. name.now) names.items
        ≡ bodies_at kind (map (λ token. token.now) tokens.now)
        (map (λ word. word.now) before.now)) }
{
    match kind {
        ExpandErrorKind::UnknownBody => names_behind(alloc, before, "body"),
        ExpandErrorKind::OpenDefinition => names_behind(alloc, tokens, "body"),
        _ => Ok(Vec::new(alloc)),
    }
}

/// The one of some names that the first body without an `end` has.
fn open_body<'a>(names: &[&'a str], tokens: &[&str]) -> Option<&'a str>
    ensures { option_map (λ name. name.now) result
        ≡ option_and_then (slice_get (map (λ name. name.now) names.now))
        (first_open (map (λ token. token.now) tokens.now)) }
{
    names.get(first_open(tokens)?).copied()
}

/// The number of the first body of these tokens that has no `end`, from 0.
pub(crate) fn first_open(tokens: &[&str]) -> Option<usize>
    ensures { result ≡ first_open (map (λ token. token.now) tokens.now) }
{
    tokens
        .split(|token| *token == "body")
        .skip(1)
        .position(|body| !has_end(body))
}

/// Whether a body has an `end`.
fn has_end(body: &[&str]) -> bool
    ensures { result ≡ has_end (map (λ token. token.now) body.now) }
{
    is_among(body, "end")
}
