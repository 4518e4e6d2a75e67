ghost use Rattle.std.specs.Prelude.{string_bytes};
ghost use Rattle.ga_programs.specs.ExpandJob.{IsExpandOutput};
ghost use Rattle.ga_input.specs.Fault.{Answers};

use ga_expand::expand;
use ga_input::{ServeError, input_text, shown_expand_fault};
use std::alloc::Global;

/// The plain source text that the input, which is text of the larger language, expands to. A fault
/// of the text comes with the lines that are shown of it.
pub fn output(alloc: Global, input: &[u8]) -> Result<String, ServeError>
    ensures { Answers string_bytes (IsExpandOutput input.now) result }
{
    let text = input_text(input)?;
    match expand(alloc, text) {
        Ok(made) => Ok(made.text),
        Err(error) => Err(shown_expand_fault(alloc, text, error)?),
    }
}
