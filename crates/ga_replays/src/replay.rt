ghost use Rattle.std.specs.Prelude.{string_bytes};
ghost use Rattle.ga_asm.specs.Text.{AtMostOne};
ghost use Rattle.ga_input.specs.Fault.{Answers};
ghost use Rattle.ga_replays.specs.Replay.{IsReplayOutput};

use ga_input::{ServeError, input_text};
use std::alloc::Global;
use std::fmt::Write;

/// How many stated outcomes of the input, which is a replay text, were compared, as text.
#[tactic(auto, using(crate::proofs::OneOutput::one_replay_output))]
pub fn output(alloc: Global, input: &[u8]) -> Result<String, ServeError>
    ensures output { Answers string_bytes (IsReplayOutput input.now) result }
    // an input has one output, or one first fault
    ensures only { AtMostOne (IsReplayOutput input.now) }
{
    let count = ga_debug::replay(alloc, input_text(input)?)?;
    let mut text = String::new(alloc);
    writeln!(text, "same {count}")?;
    Ok(text)
}
