ghost use Rattle.std.specs.Prelude.{◌≡◌, ◌+◌, ◌<◌, ◌++◌, ◌^◌, IfOk, None, OnOk, length, string_bytes};
ghost use Rattle.ga_asm.specs.Text.{AtMostOne};
ghost use Rattle.ga_debug.specs.Session.{without_line_end};
ghost use Rattle.ga_transcript.specs.Check.{Answers, Differs, IsChecked, IsPassed, checked_by, fault_of, signed};
ghost use Rattle.ga_transcript.specs.Following.{checked, early_reply, wanted};
ghost use Rattle.ga_transcript.specs.Reply.{reply_lines, step_of};

use crate::error::TranscriptError;
use crate::line::{Line, line_of};
use crate::lines::{LinesLeft, command_behind, early_reply};
use crate::reply::{lines_in, push_as_reply};
use crate::unmet::find_unmet;
use ga_debug::{Pieces, Program, load, reply_or_refusal};
use std::alloc::{AllocError, Global};
use std::fmt::Write;

/// Runs the commands of a transcript, and compares the reply to each with the lines behind it.
/// Answers how many commands there are, if all replies are right, or the first fault: of the head,
/// as [`TranscriptError::Head`]; a line of a reply before all commands, as
/// [`TranscriptError::EarlyReply`]; the first command that has another reply, as
/// [`TranscriptError::Differs`]; replies to expectations that aren't met, as
/// [`TranscriptError::Failed`]. Fails with [`TranscriptError::Memory`] only when out of memory.
/// (The texts are this project's own: profile.)
#[tactic(auto, using(crate::proofs::OneTranscript::one_passed))]
pub fn check(alloc: Global, text: &str) -> Result<u64, TranscriptError>
    ensures passed { Answers (λ count. count) (IsPassed text.now) result }
    // a text has one count, or one first fault
    ensures only { AtMostOne (IsPassed text.now) }
{
    let count = check_replies(alloc, text)?;
    match find_unmet(text) {
        None => Ok(count),
        Some(found) => Err(TranscriptError::Failed(found)),
    }
}

/// How many commands there are, if all replies are right, or the first fault.
fn check_replies(alloc: Global, text: &str) -> Result<u64, TranscriptError>
    ensures { Answers (λ count. count) (IsChecked text.now) result }
{
    let loaded = load(alloc, text)?;
    let left = LinesLeft {
        number: loaded.line,
        lines: loaded.lines,
    };
    match early_reply(left.again()) {
        None => follow(alloc, &loaded.program, left),
        Some(line) => Err(TranscriptError::EarlyReply(line)),
    }
}

/// Runs the commands of lines, and compares the reply to each with the lines behind it. No line of
/// a reply comes before the first one.
fn follow(alloc: Global, program: &Program, mut left: LinesLeft<'_>) -> Result<u64, TranscriptError>
    requires room { left.number + length left.lines < 2 ^ 64 }
    requires none { early_reply (left.number + 1) left.lines ≡ None }
    ensures { Answers (λ count. count) (λ answer. checked_by (checked (step_of program.now)
        (left.entry.number + 1) 0 program.now.start left.entry.lines) ≡ answer) result }
{
    let mut chip = program.start.copied(alloc)?;
    let mut count = 0;
    let mut came = String::new(alloc);
    loop {
        let behind = left.again();
        let Ok(next) = command_behind(&mut left, &came) else {
            return Err(difference(alloc, behind, &came)?);
        };
        let Some(command) = next else {
            return Ok(count);
        };
        reply_or_refusal(alloc, &mut came, &mut chip, Some(program), command)?;
        count += 1;
    }
}

/// The difference of a command with another reply than the one behind it, with these lines left.
fn difference(
    alloc: Global,
    behind: LinesLeft<'_>,
    came: &str,
) -> Result<TranscriptError, AllocError>
    ensures { IfOk result (λ error. fault_of error ≡ Differs behind.entry.number
        (without_line_end (signed 45 (wanted behind.entry.lines)
        ++ signed 43 (reply_lines came.now)))) }
{
    let mut lines = String::new(alloc);
    push_wanted(&mut lines, behind.lines)?;
    push_came(&mut lines, came)?;
    if lines.as_bytes().last() == Some(&b'\n') {
        lines.truncate(lines.len() - 1);
    }
    Ok(TranscriptError::Differs(behind.number, lines))
}

/// Adds the lines of a reply before the next command, each behind `-` and ended by LF.
fn push_wanted(text: &mut String, lines: Pieces<'_>) -> Result<(), AllocError>
    ensures { OnOk result (string_bytes text.new
        ≡ string_bytes text.old ++ signed 45 (wanted lines.entry)) }
{
    for line in lines {
        match line_of(line) {
            Line::Command(_) => return Ok(()),
            Line::Note => {}
            Line::Reply => writeln!(text, "-{line}")?,
        }
    }
    Ok(())
}

/// Adds the lines of a reply, each behind `+` and ended by LF.
fn push_came(text: &mut String, came: &str) -> Result<(), AllocError>
    ensures { OnOk result (string_bytes text.new
        ≡ string_bytes text.old ++ signed 43 (reply_lines came.now)) }
{
    for line in lines_in(came) {
        text.push('+')?;
        push_as_reply(text, line)?;
        text.push('\n')?;
    }
    Ok(())
}
