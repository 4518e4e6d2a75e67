//! What may help with a fault of a source text.
ghost use Rattle.std.specs.Prelude.{◌≡◌, IfOk, map, option_map};
ghost use Rattle.ga_pack.specs.Model.Text.{texts_of};
ghost use Rattle.ga_asm.specs.Text.{AtMostOne};
ghost use Rattle.ga_expand.specs.Error.{fault_of};
ghost use Rattle.ga_hints.specs.Hints.{IsHint, expand_hint, expand_word_hint, hint_of};

use crate::bodies::open_body_hint;
use crate::hint_kind::Hint;
use crate::names::{names_for_expand, place, word_at, words_before};
use crate::nearest::nearest_hint;
use crate::program_hints::expansion_hint;
use crate::source_hints::source_hint;
use ga_expand::{ExpandError, ExpandErrorKind};
use ga_faults::Fault;
use std::alloc::{AllocError, Global};

/// What may help with a fault of a text of the larger language, if anything does: what a misused
/// token is, the known name that is nearest to one that means nothing, the body that has no end, or
/// the size of a program that is too long. The fault is at the place where its token was written.
/// Fails only when out of memory. (The rules are this project's own: profile.)
#[tactic(auto, using(crate::proofs::OneHint::one_hint))]
pub fn hint(alloc: Global, text: &str, fault: Fault) -> Result<Option<Hint>, AllocError>
    ensures hint { IfOk result (λ hint. IsHint text.now fault (option_map hint_of hint)) }
    // a fault has one hint, or none
    ensures only { AtMostOne (IsHint text.now fault) }
{
    match fault {
        Fault::Expand(error) => expand_hint(alloc, text, error),
        Fault::Source(error) => source_hint(alloc, text, error),
        Fault::Asm(error) => expansion_hint(alloc, text, error),
    }
}

/// What may help with a fault of the definitions of a text.
fn expand_hint(alloc: Global, text: &str, error: ExpandError) -> Result<Option<Hint>, AllocError>
    ensures { IfOk result (λ hint. option_map hint_of hint
        ≡ expand_hint text.now (fault_of error)) }
{
    let place = place(error.line, error.column);
    match word_at(alloc, text, place)? {
        Some(word) => {
            let before = words_before(alloc, text, place)?;
            expand_word_hint(alloc, text, &before, word, error.kind)
        }
        None => Ok(None),
    }
}

/// What may help with a fault of a kind at a word of a text, behind some of the text's tokens.
fn expand_word_hint(
    alloc: Global,
    text: &str,
    before: &[&str],
    word: &str,
    kind: ExpandErrorKind,
) -> Result<Option<Hint>, AllocError>
    ensures { IfOk result (λ hint. option_map hint_of hint ≡ expand_word_hint kind
        (texts_of text.now) (map (λ token. token.now) before.now) word.now) }
{
    let names = names_for_expand(alloc, before, word, kind)?;
    match nearest_hint(alloc, word, &names)? {
        Some(hint) => Ok(Some(hint)),
        None => open_body_hint(alloc, text, before, kind),
    }
}
