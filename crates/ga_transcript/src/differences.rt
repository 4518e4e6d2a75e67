//! All commands of a transcript that have other replies than those behind them.
ghost use Rattle.std.specs.Prelude.{◌≡◌, ◌↔◌, ℕ, ◌+◌, ◌<◌, ◌≤◌, ◌++◌, ◌∷◌, ◌^◌, [], IfOk, List, OnOk, length, string_bytes};
ghost use Rattle.ga_asm.specs.Text.{AtMostOne};
ghost use Rattle.ga_transcript.specs.Check.{Answers};
ghost use Rattle.ga_transcript.specs.Compare.{IsCompared, IsComparedIfMet, comparison_of, comparison_view, difference_text, excerpt, more_lines, unless_long_report};
ghost use Rattle.ga_transcript.specs.inner.Excerpt.{shown_line};
ghost use Rattle.ga_transcript.specs.Line.{as_reply};
ghost use Rattle.ga_transcript.specs.Following.{Compared, same_lines, wanted};
ghost use Rattle.ga_transcript.specs.Following as spec;
ghost use Rattle.ga_transcript.specs.Record.{Holds};
ghost use Rattle.ga_transcript.specs.Reply.{reply_lines, step_of};

use crate::error::TranscriptError;
use crate::line::{Line, line_of};
use crate::lines::{LinesLeft, command_behind, early_reply};
use crate::reply::{lines_in, push_as_reply};
use crate::unmet::find_unmet;
use ga_debug::{Pieces, Program, load, reply_or_refusal};
use std::alloc::{AllocError, Global};
use std::fmt::Write;

/// The most bytes that a report may have.
const REPORT_LIMIT: usize = 268_435_456;

/// How many lines of a reply a report shows.
const SHOWN_LINES: u64 = 10;

/// How the actual replies of a transcript compare with those behind its commands.
#[derive(Debug, PartialEq, Eq, Drop)]
pub struct Comparison {
    /// How many commands there are.
    pub commands: u64,
    /// How many of them have another reply.
    pub differences: u64,
    /// The report on these, in their order: a line with the file, the command's line and the
    /// command; up to ten lines of the expected reply, each behind `-`; and as many of the actual
    /// one, each behind `+`. Each line ends with LF.
    pub report: String,
}

/// Runs all commands of a transcript, which comes from the file with a name, and compares the reply
/// to each with the lines behind it. Behind a difference it goes on with the chip as the command
/// left it. Or the first fault: of the head, as [`TranscriptError::Head`]; a line of a reply before
/// all commands, as [`TranscriptError::EarlyReply`]; a report of more than 268,435,456 bytes, as
/// [`TranscriptError::TooLong`]; if nothing differs, replies to expectations that aren't met, as
/// [`TranscriptError::Failed`]. Fails with [`TranscriptError::Memory`] only when out of memory.
/// (The texts are this project's own: profile.)
#[tactic(auto, using(crate::proofs::Comparisons::one_compared_if_met))]
pub fn compare(alloc: Global, name: &str, text: &str) -> Result<Comparison, TranscriptError>
    ensures compared { Answers comparison_view (IsComparedIfMet name.now text.now) result }
    // a text has one comparison, or one first fault
    ensures only { AtMostOne (IsComparedIfMet name.now text.now) }
    // there is no difference exactly if all replies are as they stand there
    ensures same { IfOk result (λ found. (found.differences ≡ 0) ↔ Holds text.now) }
{
    let found = compare_replies(alloc, name, text)?;
    match find_unmet(text) {
        Some(unmet) if found.differences == 0 => Err(TranscriptError::Failed(unmet)),
        _ => Ok(found),
    }
}

/// The same, whatever is expected.
fn compare_replies(alloc: Global, name: &str, text: &str) -> Result<Comparison, TranscriptError>
    ensures compared { Answers comparison_view (IsCompared name.now text.now) result }
    ensures same { IfOk result (λ found. (found.differences ≡ 0) ↔ Holds text.now) }
{
    let loaded = load(alloc, text)?;
    let left = LinesLeft {
        number: loaded.line,
        lines: loaded.lines,
    };
    match early_reply(left.again()) {
        None => compared(alloc, name, &loaded.program, left),
        Some(line) => Err(TranscriptError::EarlyReply(line)),
    }
}

/// Runs the commands of lines, and compares the reply to each with the lines behind it.
fn compared(
    alloc: Global,
    name: &str,
    program: &Program,
    mut left: LinesLeft<'_>,
) -> Result<Comparison, TranscriptError>
    requires { left.number + length left.lines < 2 ^ 64 }
    ensures { Answers comparison_view (λ answer. unless_long_report (comparison_of name.now
        (spec.compared (step_of program.now) (left.entry.number + 1) program.now.start
        left.entry.lines))
        ≡ answer) result }
{
    let mut chip = program.start.copied(alloc)?;
    let mut found = Comparison {
        commands: 0,
        differences: 0,
        report: String::new(alloc),
    };
    let mut came = String::new(alloc);
    while found.report.len() <= REPORT_LIMIT {
        let Some(line) = left.lines.next() else {
            return Ok(found);
        };
        left.number += 1;
        if let Line::Command(command) = line_of(line) {
            reply_or_refusal(alloc, &mut came, &mut chip, Some(program), command)?;
            add_command(&mut found, name, command, left.again(), &came)?;
        }
    }
    Err(TranscriptError::TooLong)
}

/// Adds a command to what is found, with the lines behind it and its actual reply.
fn add_command(
    found: &mut Comparison,
    name: &str,
    command: &str,
    behind: LinesLeft<'_>,
    came: &str,
) -> Result<(), AllocError>
    requires room { behind.number + length behind.lines < 2 ^ 64 }
    requires commands { found.old.commands < behind.number }
    requires differences { found.old.differences ≤ found.old.commands }
    ensures added { OnOk result ((done : List Compared)
        → comparison_view found.old ≡ comparison_of name.now done
        → comparison_view found.new ≡ comparison_of name.now (done ++ record {
          line = behind.entry.number;
          command = command.now;
          wanted = wanted behind.entry.lines;
          came = reply_lines came.now;
        } ∷ [])) }
    ensures commands { OnOk result (found.new.commands ≡ found.old.commands + 1) }
    ensures differences { OnOk result (found.new.differences ≤ found.new.commands) }
{
    found.commands += 1;
    if !is_expected(behind.again(), came) {
        found.differences += 1;
        push_difference(&mut found.report, name, command, behind, came)?;
    }
    Ok(())
}

/// Whether a reply is the one that is expected by the lines behind its command.
fn is_expected(mut behind: LinesLeft<'_>, came: &str) -> bool
    requires { behind.number + length behind.lines < 2 ^ 64 }
    ensures { result ≡ same_lines (wanted behind.entry.lines) (reply_lines came.now) }
{
    command_behind(&mut behind, came).is_ok()
}

/// Adds the report on a command with another reply than the one behind it.
#[tactic(auto, unfolding(crate::specs::Compare::difference_text))]
fn push_difference(
    report: &mut String,
    name: &str,
    command: &str,
    behind: LinesLeft<'_>,
    came: &str,
) -> Result<(), AllocError>
    requires { behind.number + length behind.lines < 2 ^ 64 }
    ensures { OnOk result (string_bytes report.new
        ≡ string_bytes report.old ++ difference_text name.now (record {
          line = behind.entry.number;
          command = command.now;
          wanted = wanted behind.entry.lines;
          came = reply_lines came.now;
        })) }
{
    writeln!(report, "{name}:{}: differs: > {command}", behind.number)?;
    push_expected(report, behind.lines)?;
    push_actual(report, came)
}

/// Adds up to ten lines of the reply before the next command, each behind `-`, and how many more
/// there are.
#[tactic(auto, using(crate::proofs::Comparisons::excerpts))]
fn push_expected(report: &mut String, lines: Pieces<'_>) -> Result<(), AllocError>
    requires { length lines < 2 ^ 64 }
    ensures { OnOk result (string_bytes report.new
        ≡ string_bytes report.old ++ excerpt 45 (wanted lines.entry)) }
{
    let mut count = 0;
    for line in lines {
        match line_of(line) {
            Line::Command(_) => return push_more(report, count),
            Line::Note => {}
            Line::Reply => {
                push_expected_line(report, line, count)?;
                count += 1;
            }
        }
    }
    push_more(report, count)
}

/// Adds a line behind `-`, if no more than nine came before it.
fn push_expected_line(report: &mut String, line: &str, count: u64) -> Result<(), AllocError>
    ensures { OnOk result (string_bytes report.new
        ≡ string_bytes report.old ++ shown_line 45 count line.now) }
{
    if count < SHOWN_LINES {
        writeln!(report, "-{line}")?;
    }
    Ok(())
}

/// Adds up to ten lines of a reply, each behind `+`, and how many more there are.
#[tactic(auto, using(crate::proofs::Comparisons::excerpts))]
fn push_actual(report: &mut String, came: &str) -> Result<(), AllocError>
    ensures { OnOk result (string_bytes report.new
        ≡ string_bytes report.old ++ excerpt 43 (reply_lines came.now)) }
{
    // From the text's length the proof gets that its lines can be counted.
    let _length = came.len();
    let mut count = 0;
    for line in lines_in(came) {
        push_actual_line(report, line, count)?;
        count += 1;
    }
    push_more(report, count)
}

/// Adds a line of a reply behind `+`, if no more than nine came before it.
fn push_actual_line(report: &mut String, line: &str, count: u64) -> Result<(), AllocError>
    ensures { OnOk result (string_bytes report.new
        ≡ string_bytes report.old ++ shown_line 43 count (as_reply line.now)) }
{
    if count < SHOWN_LINES {
        report.push('+')?;
        push_as_reply(report, line)?;
        report.push('\n')?;
    }
    Ok(())
}

/// Adds how many lines there are beyond those that are shown.
fn push_more(report: &mut String, count: u64) -> Result<(), AllocError>
    ensures { OnOk result (string_bytes report.new ≡ string_bytes report.old ++ more_lines count) }
{
    if count > SHOWN_LINES {
        writeln!(report, "  and {} more", count - SHOWN_LINES)?;
    }
    Ok(())
}
