ghost use Rattle.std.specs.Prelude.{◌≡◌, IfOk, string_bytes};
ghost use Rattle.ga_asm.specs.Text.{AtMostOne};
ghost use Rattle.ga_replays.specs.Debug.{IsDebugOutput, replies_to};
ghost use Rattle.ga_input.specs.Fault.{Answers};

use ga_chip::Chip;
use ga_debug::{Pieces, load, reply_or_refusal};
use ga_input::{ServeError, input_text};
use std::alloc::{AllocError, Global};
use std::fmt::Write;

/// The replies to the commands of the input, which is a replay text, as text.
#[tactic(auto, using(crate::proofs::OneOutput::one_debug_output))]
pub fn output(alloc: Global, input: &[u8]) -> Result<String, ServeError>
    ensures output { Answers string_bytes (IsDebugOutput input.now) result }
    // an input has one output, or one first fault
    ensures only { AtMostOne (IsDebugOutput input.now) }
{
    let loaded = load(alloc, input_text(input)?)?;
    let program = loaded.program;
    let replies = replies_to(alloc, program.start, loaded.lines)?;
    Ok(replies)
}

/// The replies of a chip to the commands of lines, each ended by LF. Empty lines have none.
fn replies_to(alloc: Global, mut chip: Chip, lines: Pieces<'_>) -> Result<String, AllocError>
    ensures { IfOk result (λ replies. string_bytes replies ≡ replies_to chip lines.entry) }
{
    let mut replies = String::new(alloc);
    let mut reply = String::new(alloc);
    for command in lines {
        if !command.is_empty() {
            reply_or_refusal(alloc, &mut reply, &mut chip, None, command)?;
            writeln!(replies, "{reply}")?;
        }
    }
    Ok(replies)
}
