ghost use Rattle.std.specs.Prelude.{◌≡◌, ◌<◌, ◌++◌, ◌∷◌, IfOk, Ok, OnOk, string_bytes, take};
ghost use Rattle.ga_asm.specs.Text.{AtMostOne};
ghost use Rattle.ga_pack.specs.Model.Text.{lines_of};
ghost use Rattle.ga_transcript.specs.Check.{Answers};
ghost use Rattle.ga_transcript.specs.Record.{Holds, IsRecorded, behind_ends, lines_text, unless_too_long};
ghost use Rattle.ga_transcript.specs.Following.{recorded};
ghost use Rattle.ga_transcript.specs.Reply as spec;

use crate::error::TranscriptError;
use crate::line::{Line, line_of};
use crate::lines::{LinesLeft, early_reply};
use crate::reply::{lines_in, push_as_reply};
use ga_chip::Chip;
use ga_debug::{Pieces, Program, load, reply_or_refusal};
use std::alloc::{AllocError, Global};

/// The most bytes that a recording may have.
const RECORDING_LIMIT: usize = 268_435_456;

/// A transcript with the actual replies: each is behind its command, and the lines of the one that
/// was there are left out. All other lines stay as they are. Or the first fault: of the head, as
/// [`TranscriptError::Head`]; a line of a reply before all commands, as
/// [`TranscriptError::EarlyReply`]; a recording of more than 268,435,456 bytes, as
/// [`TranscriptError::TooLong`], and no command is run behind the one that makes it too long. Fails
/// with [`TranscriptError::Memory`] only when out of memory. (The texts are this project's own:
/// profile.)
#[tactic(auto, using(crate::proofs::OneTranscript::one_recorded))]
pub fn record(alloc: Global, text: &str) -> Result<String, TranscriptError>
    ensures recorded { Answers string_bytes (IsRecorded text.now) result }
    // a text has one recording, or one first fault
    ensures only { AtMostOne (IsRecorded text.now) }
    // each command has the reply behind it
    ensures holds { IfOk result (λ recording. Holds (string_bytes recording)) }
    // and recording it again doesn't change it
    ensures again { IfOk result (λ recording. IsRecorded (string_bytes recording)
        (Ok (string_bytes recording))) }
{
    let loaded = load(alloc, text)?;
    let lines = loaded.lines;
    let left = LinesLeft {
        number: loaded.line,
        lines: lines.again(),
    };
    if let Some(line) = early_reply(left) {
        return Err(TranscriptError::EarlyReply(line));
    }
    let mut recording = front(alloc, text, loaded.line)?;
    push_recorded(alloc, &mut recording, &loaded.program, lines)?;
    Ok(recording)
}

/// Adds the recording of lines, each behind an LF, until the text is too long.
fn push_recorded(
    alloc: Global,
    text: &mut String,
    program: &Program,
    mut lines: Pieces<'_>,
) -> Result<(), TranscriptError>
    ensures { Answers (λ done. string_bytes text.new) (λ answer. unless_too_long
        (string_bytes text.old ++ behind_ends (recorded (spec.step_of program.now)
        program.now.start lines.entry))
        ≡ answer) result }
{
    let mut chip = program.start.copied(alloc)?;
    let mut came = String::new(alloc);
    while text.len() <= RECORDING_LIMIT {
        let Some(line) = lines.next() else {
            return Ok(());
        };
        match line_of(line) {
            Line::Command(command) => {
                push_line(text, line)?;
                push_came(alloc, text, &mut came, &mut chip, program, command)?;
            }
            Line::Note => push_line(text, line)?,
            Line::Reply => {}
        }
    }
    Err(TranscriptError::TooLong)
}

/// Runs a command, replaces the reply before by its own, and adds the lines of the reply, each
/// behind an LF.
fn push_came(
    alloc: Global,
    text: &mut String,
    came: &mut String,
    chip: &mut Chip,
    program: &Program,
    command: &str,
) -> Result<(), AllocError>
    ensures text { OnOk result (string_bytes text.new ≡ string_bytes text.old
        ++ behind_ends (spec.step_of program.now command.now chip.old).0) }
    ensures chip { OnOk result (chip.new ≡ (spec.step_of program.now command.now chip.old).1) }
{
    reply_or_refusal(alloc, came, chip, Some(program), command)?;
    push_reply(text, came)
}

/// The first `count` lines of a text, with an LF between two.
pub(crate) fn front(alloc: Global, text: &str, count: u64) -> Result<String, AllocError>
    requires { 0 < count }
    ensures { IfOk result (λ front.
        string_bytes front ≡ lines_text (take count (lines_of text.now))) }
{
    let mut lines = Pieces::new(text, '\n');
    let mut front = String::new(alloc);
    if let Some(line) = lines.next() {
        front.push_str(line)?;
    }
    let mut left = count - 1;
    while left > 0 {
        let Some(line) = lines.next() else {
            return Ok(front);
        };
        push_line(&mut front, line)?;
        left -= 1;
    }
    Ok(front)
}

/// Adds the lines of a reply, each behind an LF.
fn push_reply(text: &mut String, came: &str) -> Result<(), AllocError>
    ensures { OnOk result (string_bytes text.new
        ≡ string_bytes text.old ++ behind_ends (spec.reply_lines came.now)) }
{
    for line in lines_in(came) {
        text.push('\n')?;
        push_as_reply(text, line)?;
    }
    Ok(())
}

/// Adds a line behind an LF.
pub(crate) fn push_line(text: &mut String, line: &str) -> Result<(), AllocError>
    ensures { OnOk result (string_bytes text.new ≡ string_bytes text.old ++ 10 ∷ line.now) }
{
    text.push('\n')?;
    text.push_str(line)?;
    Ok(())
}
