ghost use Rattle.std.specs.Prelude.{◌≢◌, Err, IfErr, IfOk, Ok, string_bytes};
ghost use Rattle.ga_asm.specs.Text.{AtMostOne};
ghost use Rattle.ga_asm.specs.declared.text.TextError.TheVariants.{Memory};
ghost use Rattle.ga_input.specs.Fault.{Answers};
ghost use Rattle.ga_programs.specs.Listing.{IsListOutput, IsListed};

use ga_asm::TextError;
use ga_input::{ServeError, input_text, shown_fault};
use ga_list::{list, list_labels};
use std::alloc::Global;

/// The listing of the input, which is source text, or only its labels. A fault of the text comes
/// with the lines that are shown of it.
#[tactic(auto, using(crate::proofs::OneOutput::one_list_output))]
pub fn output(alloc: Global, labels: bool, input: &[u8]) -> Result<String, ServeError>
    ensures output { Answers string_bytes (IsListOutput labels input.now) result }
    // an input has one output, or one first fault
    ensures only { AtMostOne (IsListOutput labels input.now) }
{
    let text = input_text(input)?;
    match listed(alloc, labels, text) {
        Ok(listing) => Ok(listing),
        Err(error) => Err(shown_fault(alloc, text, error)?),
    }
}

/// The listing of a text, or only its labels.
fn listed(alloc: Global, labels: bool, text: &str) -> Result<String, TextError>
    ensures listed { IfOk result (λ listing. IsListed labels text.now (Ok (string_bytes listing))) }
    ensures fault { IfErr result (λ error. error ≢ Memory → IsListed labels text.now (Err error)) }
{
    if labels {
        list_labels(alloc, text)
    } else {
        list(alloc, text)
    }
}
