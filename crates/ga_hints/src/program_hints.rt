//! What may help with a fault of a program.
ghost use Rattle.std.specs.Prelude.{◌≡◌, IfOk, None, false, map, option_and_then, option_map};
ghost use Rattle.ga_source.specs.Item.{item_of};
ghost use Rattle.ga_source.specs.Token.{place_of};
ghost use Rattle.ga_hints.specs.Hints.{IsProgramHint, hint_of, is_address, items_of, label_hint, label_in, program_hint};
ghost use Rattle.ga_hints.specs.Names.{word_at};

use crate::hint_kind::Hint;
use crate::names::{names_for_label, place, word_at};
use crate::nearest::nearest_hint;
use crate::size::size_of;
use ga_asm::{AsmError, AsmErrorKind};
use ga_expand::{ExpandErrorKind, expand};
use ga_faults::part_of;
use ga_place::Node;
use ga_source::{Place, Program, Section, SourceErrorKind, parse};
use std::alloc::{AllocError, Global};

/// What may help with a fault of the program that a part of a text expands to.
pub(crate) fn expansion_hint(
    alloc: Global,
    text: &str,
    error: AsmError,
) -> Result<Option<Hint>, AllocError>
    ensures { IfOk result (λ hint. IsProgramHint text.now error (option_map hint_of hint)) }
{
    let part = part_of(alloc, text, error.line, error.node)?;
    let made = match expand(alloc, part.as_str()) {
        Ok(made) => made,
        Err(fault) => return no_hint(fault.kind == ExpandErrorKind::Memory),
    };
    match parse(alloc, made.text.as_str()) {
        Ok(program) => program_hint(alloc, text, part.as_str(), error, &program),
        Err(fault) => no_hint(fault.kind == SourceErrorKind::Memory),
    }
}

/// No hint, or out of memory.
fn no_hint(is_memory: bool) -> Result<Option<Hint>, AllocError>
    ensures { IfOk result (λ hint. (is_memory ≡ false) × (hint ≡ None)) }
{
    if is_memory { Err(AllocError) } else { Ok(None) }
}

/// What may help with a fault of a text, which is one of the program of a part.
fn program_hint(
    alloc: Global,
    text: &str,
    part: &str,
    error: AsmError,
    program: &Program<'_>,
) -> Result<Option<Hint>, AllocError>
    ensures { IfOk result (λ hint. option_map hint_of hint
        ≡ program_hint text.now part.now error program.now) }
{
    let Some(section) = section_of(program, error.node) else {
        return Ok(None);
    };
    match error.kind {
        AsmErrorKind::UndefinedLabel => {
            let place = place(error.line, error.column);
            label_hint(alloc, text, part, place, section)
        }
        AsmErrorKind::TooLong => {
            let size = size_of(alloc, section.items.as_slice())?;
            Ok(Some(Hint::Needs(size)))
        }
        _ => Ok(None),
    }
}

/// The section of a node.
fn section_of<'a>(program: &'a Program<'_>, node: Node) -> Option<&'a Section>
    ensures { option_map (λ section. map item_of section.now.items.items) result
        ≡ items_of program.now node }
{
    program.sections().get(&node)
}

/// The label or the constant of a part that is nearest to the name of a label at a place of a text,
/// if one is near.
fn label_hint(
    alloc: Global,
    text: &str,
    part: &str,
    place: Place,
    section: &Section,
) -> Result<Option<Hint>, AllocError>
    ensures { IfOk result (λ hint. option_map hint_of hint
        ≡ option_and_then (label_hint part.now (map item_of section.now.items.items))
        (word_at text.now (place_of place))) }
{
    match word_at(alloc, text, place)? {
        Some(word) => {
            let names = names_for_label(alloc, part, is_address(word), &section.labels)?;
            nearest_hint(alloc, label_in(word), &names)
        }
        None => Ok(None),
    }
}

/// Whether a token is the address of a label.
fn is_address(word: &str) -> bool
    ensures { result ≡ is_address word.now }
{
    word.as_bytes().first() == Some(&b'&')
}

/// The label that a token names: `&` and a label is the address of the label.
fn label_in(word: &str) -> &str
    ensures { result.now ≡ label_in word.now }
{
    match word.strip_prefix('&') {
        Some(label) => label,
        None => word,
    }
}
