//! The places at which the tokens of an expansion were written.
ghost use Rattle.std.specs.Prelude.{◌≡◌, IfOk};
ghost use Rattle.ga_source.specs.Token.{place_of};
ghost use Rattle.ga_faults.specs.Origin.{at_origin, origin};

use ga_asm::{AsmError, TextError};
use ga_expand::Expansion;
use ga_source::{Place, SourceError, end_place};
use std::alloc::{AllocError, Global};

/// A fault of an expansion of a text, at the place in the text where its token was written. Fails
/// only when out of memory. (The language is this project's own: profile.)
#[tactic(auto, unfolding(crate::specs::Origin::at_origin))]
pub fn at_origin(
    alloc: Global,
    text: &str,
    made: &Expansion,
    error: TextError,
) -> Result<TextError, AllocError>
    ensures { IfOk result (λ written. written ≡ at_origin text.now made.now error) }
{
    match error {
        TextError::Source(error) => {
            let Place { line, column } = origin(alloc, text, made, error.line, error.column)?;
            Ok(TextError::Source(SourceError {
                line,
                column,
                ..error
            }))
        }
        TextError::Asm(error) => {
            let Place { line, column } = origin(alloc, text, made, error.line, error.column)?;
            Ok(TextError::Asm(AsmError {
                line,
                column,
                ..error
            }))
        }
        TextError::Memory => Ok(TextError::Memory),
    }
}

/// The place in a text where the token at a line and a column of its expansion was written, each
/// from 1. If no token begins there, as at the expansion's end, it is the text's end. Fails only
/// when out of memory. (The language is this project's own: profile.)
pub fn origin(
    alloc: Global,
    text: &str,
    made: &Expansion,
    line: usize,
    column: usize,
) -> Result<Place, AllocError>
    ensures { IfOk result (λ place. place_of place
        ≡ origin text.now made.now (record { line = line; column = column })) }
{
    match made.origin(alloc, Place { line, column })? {
        Some(place) => Ok(place),
        None => Ok(end_place(text)),
    }
}
