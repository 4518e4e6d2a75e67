//! Inputs whose source text may be of the larger language.
ghost use Rattle.std.specs.Prelude.{◌≡◌, IfOk};
ghost use Rattle.ga_input.specs.Fault.{Answers};
ghost use Rattle.ga_input.specs.Larger.{IsExpandedInput, as_written, is_session, is_shown, plain_fault, source_fault};

use crate::fault::{ServeError, TextFault};
use crate::text::input_text;
use crate::text_fault::{shown_expand_fault, shown_fault};
use ga_asm::TextError;
use ga_expand::{Expansion, expand};
use ga_faults::at_origin;
use std::alloc::{AllocError, Global};

/// The fault of an input that was read as source text, if a fault is one. A job that takes a
/// session too shows the lines of its faults.
pub fn plain_fault(input: &[u8], fault: &ServeError) -> Option<TextError>
    ensures { result ≡ plain_fault input.now fault.now }
{
    if is_session(input) && is_shown(fault) {
        None
    } else {
        source_fault(fault)
    }
}

/// Whether a fault comes with the lines that are shown of its text.
fn is_shown(fault: &ServeError) -> bool
    ensures { result ≡ is_shown fault.now }
{
    matches!(fault, ServeError::Shown { .. })
}

/// Whether an input is a session, and no source text: it begins with `profile`.
pub fn is_session(input: &[u8]) -> bool
    ensures { result ≡ is_session input.now }
{
    input.starts_with(b"profile")
}

/// The fault of source text, if a fault is one.
fn source_fault(fault: &ServeError) -> Option<TextError>
    ensures { result ≡ source_fault fault.now }
{
    match fault {
        ServeError::Source(error) => Some(TextError::Source(*error)),
        ServeError::Asm(error) => Some(TextError::Asm(*error)),
        ServeError::Shown { fault, .. } => match fault {
            TextFault::Source(error) => Some(TextError::Source(*error)),
            TextFault::Asm(error) => Some(TextError::Asm(*error)),
            _ => None,
        },
        _ => None,
    }
}

/// An input as text, and what it expands to; or its first fault with the lines that are shown of
/// the text.
pub fn expanded(alloc: Global, input: &[u8]) -> Result<(&str, Expansion), ServeError>
    ensures text { IfOk result (λ found. found.0.now ≡ input.now) }
    ensures made { Answers (λ found. found.1) (IsExpandedInput input.now) result }
{
    let text = input_text(input)?;
    match expand(alloc, text) {
        Ok(made) => Ok((text, made)),
        Err(error) => Err(shown_expand_fault(alloc, text, error)?),
    }
}

/// The fault of an expansion as it is reported: if it is one of source text, at the place where its
/// token was written, with the lines that are shown of the text.
pub fn as_written(
    alloc: Global,
    text: &str,
    made: &Expansion,
    fault: ServeError,
) -> Result<ServeError, AllocError>
    ensures { IfOk result (λ written. written ≡ as_written text.now made.now fault) }
{
    match source_fault(&fault) {
        Some(error) => shown_fault(alloc, text, at_origin(alloc, text, made, error)?),
        None => Ok(fault),
    }
}
