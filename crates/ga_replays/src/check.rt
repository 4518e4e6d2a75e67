ghost use Rattle.std.specs.Prelude.{string_bytes};
ghost use Rattle.ga_asm.specs.Text.{AtMostOne};
ghost use Rattle.ga_input.specs.Fault.{Answers};
ghost use Rattle.ga_replays.specs.Transcript.{IsCheckOutput};

use ga_input::{ServeError, input_text, shown_transcript_fault};
use ga_transcript::check;
use std::alloc::Global;
use std::fmt::Write;

/// How many commands of the input, which is a transcript, have the reply that is behind them, as
/// text. A fault of the transcript comes with the lines that are shown of it.
#[tactic(auto, using(crate::proofs::OneOutput::one_check_output))]
pub fn output(alloc: Global, input: &[u8]) -> Result<String, ServeError>
    ensures output { Answers string_bytes (IsCheckOutput input.now) result }
    // an input has one output, or one first fault
    ensures only { AtMostOne (IsCheckOutput input.now) }
{
    let text = input_text(input)?;
    match check(alloc, text) {
        Ok(count) => {
            let mut output = String::new(alloc);
            writeln!(output, "same {count}")?;
            Ok(output)
        }
        Err(error) => Err(shown_transcript_fault(alloc, text, error)?),
    }
}
