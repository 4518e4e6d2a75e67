ghost use Rattle.std.specs.Prelude.{IfOk, IfSome, option_map, string_bytes};
ghost use Rattle.ga_asm.specs.Text.{AtMostOne};
ghost use Rattle.ga_input.specs.Fault.{Answers};
ghost use Rattle.ga_transcript.specs.Record.{Holds};
ghost use Rattle.ga_replays.specs.Transcript.{IsRecordOutput, IsReplacement};

use ga_input::{INPUT_LIMIT, OutputFault, ServeError, input_text, shown_transcript_fault};
use ga_transcript::record;
use std::alloc::Global;

/// The input, which is a transcript, with the actual replies. A fault of the transcript comes with
/// the lines that are shown of it.
#[tactic(auto, using(crate::proofs::OneOutput::one_record_output))]
pub fn output(alloc: Global, input: &[u8]) -> Result<String, ServeError>
    ensures output { Answers string_bytes (IsRecordOutput input.now) result }
    // an input has one output, or one first fault
    ensures only { AtMostOne (IsRecordOutput input.now) }
{
    let text = input_text(input)?;
    match record(alloc, text) {
        Ok(recording) => Ok(recording),
        Err(error) => Err(shown_transcript_fault(alloc, text, error)?),
    }
}

/// What replaces the input, which is a transcript: its recording, or `None` if it is that already.
/// A recording of more bytes than an input may have is refused as
/// [`OutputFault::TooLong`]; other faults are those of [`output`].
pub fn replacement(alloc: Global, input: &[u8]) -> Result<Option<String>, ServeError>
    ensures replacement { Answers (λ text. option_map string_bytes text)
        (IsReplacement input.now) result }
    // each command has the reply behind it
    ensures holds { IfOk result (λ text. IfSome text (λ text. Holds (string_bytes text))) }
{
    let recording = output(alloc, input)?;
    if recording.as_bytes() == input {
        return Ok(None);
    }
    if recording.len() > INPUT_LIMIT {
        return Err(ServeError::Output(OutputFault::TooLong));
    }
    Ok(Some(recording))
}
