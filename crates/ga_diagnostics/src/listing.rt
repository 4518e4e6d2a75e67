//! The listing of an input, with the lines that were written.
ghost use Rattle.std.specs.Prelude.{string_bytes};
ghost use Rattle.ga_input.specs.Fault.{Answers};
ghost use Rattle.ga_diagnostics.specs.Lines.{name_of, origins_of};
ghost use Rattle.ga_diagnostics.specs.Listing.{IsWrittenListing};

use crate::lines::Lines;
use crate::written_lines::WrittenLines;
use ga_faults::at_origin;
use ga_input::{ServeError, expanded, shown_fault};
use ga_list::list_with;
use std::alloc::Global;

/// The listing of the input, which is source text of the larger language or the plain one, and
/// whose lines were written there. It has the words of the text that the input expands to, each
/// with the line where its first token was written. That is the line's number in its file. If
/// another file includes that one, its name and a colon stand before the number. A fault of the
/// text comes with the lines that are shown of it. (The text is this project's own: profile.)
pub fn written_listing(alloc: Global, lines: &Lines<'_>, input: &[u8]) -> Result<String, ServeError>
    ensures { Answers string_bytes
        (IsWrittenListing (name_of lines.now) (origins_of lines.now) input.now) result }
{
    let (text, made) = expanded(alloc, input)?;
    let names = WrittenLines::new(alloc, lines, text, &made)?;
    match list_with(alloc, made.text.as_str(), &names) {
        Ok(listing) => Ok(listing),
        Err(error) => Err(shown_fault(alloc, text, at_origin(alloc, text, &made, error)?)?),
    }
}
