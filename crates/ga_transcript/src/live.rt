//! Sessions that go on.
ghost use Rattle.std.specs.Prelude.{◌≡◌, ◌==◌, ◌+◌, ◌<◌, ◌≤◌, ◌^◌, ◌++◌, ◌∷◌, [], ℕ, IfOk, Ok, List, OnErr, OnOk, Some, codes, false, length, string_bytes, take};
ghost use Rattle.std.specs.List.{All};
ghost use Rattle.std.specs.String.{string_capacity};
ghost use Rattle.ga_asm.specs.Text.{AtMostOne};
ghost use Rattle.ga_debug.specs.Session.{replied, text_or_refusal, without_line_end};
ghost use Rattle.ga_transcript.specs.Check.{Answers};
ghost use Rattle.ga_transcript.specs.Live.{IsBack, IsBefore, IsOpened, LiveView, before_command, command_count, said, state_behind};
ghost use Rattle.ga_transcript.specs.Record.{Holds, IsRecorded, behind_ends, unless_too_long};
ghost use Rattle.ga_transcript.specs.Reply.{reply_lines, step_of};

use crate::error::TranscriptError;
use crate::line::{Line, line_of};
use crate::lines::{LinesLeft, early_reply};
use crate::recording::{front, push_line, record};
use ga_asm::Images;
use ga_chip::Chip;
use ga_debug::{Pieces, Program, ReplayError, load, reply_or_refusal};
use std::alloc::{AllocError, Global};
use std::marker::Model;
use std::mem::replace;

/// A session that goes on: a transcript, and the chip behind its last command. A contract sees
/// both, and the program of the head.
#[derive(Drop)]
pub struct Live {
    text: String,
    program: Program,
    chip: Chip,
}

impl Model for Live {
    ghost use Rattle.std.specs.Prelude.{Ok, string_bytes};
    ghost use Rattle.ga_transcript.specs.Live.{IsOpened, LiveView};

    ghost Value = { LiveView };

    ghost view = { λ live. record {
      text = string_bytes live.text;
      program = live.program;
      chip = live.chip;
    } };

    ghost invariant = { λ live. IsOpened (string_bytes live.text) (Ok (record {
      text = string_bytes live.text;
      program = live.program;
      chip = live.chip;
    })) };
}

impl Live {
    /// The session of a transcript. Its commands are done, and their replies aren't compared. An LF
    /// at the end is left out. Or the first fault: of the head, as [`TranscriptError::Head`]; a
    /// line of a reply before all commands, as [`TranscriptError::EarlyReply`]. Fails with
    /// [`TranscriptError::Memory`] only when out of memory. (The texts are this project's own:
    /// profile.)
    #[tactic(auto, using(crate::proofs::Lives::one_opened))]
    pub fn open(alloc: Global, text: &str) -> Result<Live, TranscriptError>
        ensures opened { Answers (λ live. live) (IsOpened (without_line_end text.now)) result }
        // a text opens one session, or has one first fault
        ensures only { AtMostOne (IsOpened (without_line_end text.now)) }
    {
        let text = without_line_end(alloc, text)?;
        let (program, chip) = opened(alloc, text.as_str())?;
        Ok(Live {
            text,
            program,
            chip,
        })
    }

    /// Does one more command, and replaces a text by its reply, or by `refused` and the name of a
    /// fault. Fails only when out of memory; then the session is as it was.
    pub fn say(
        &mut self,
        alloc: Global,
        reply: &mut String,
        command: &str,
    ) -> Result<(), AllocError>
        // it is one line of the transcript
        requires { All (λ c. (c == 10) ≡ false) command.now }
        ensures reply { OnOk result (string_bytes reply.new
            ≡ text_or_refusal (Some self.old.program) command.now
            (replied (Some self.old.program) command.now self.old.chip).0) }
        ensures said { OnOk result (self.new ≡ said command.now self.old) }
        // `record` writes what it wrote before, the command, and this reply
        ensures shown { OnOk result ((recording : List ℕ) → IsRecorded self.old.text (Ok recording)
            → IsRecorded self.new.text (unless_too_long (recording
            ++ behind_ends ((codes "> " ++ command.now) ∷ reply_lines (string_bytes reply.new))))) }
        ensures same { OnErr result (self.new ≡ self.old) }
    {
        // Before the command, so that nothing is refused behind it.
        self.text.reserve(command.len() + 3)?;
        reply_or_refusal(alloc, reply, &mut self.chip, Some(&self.program), command)?;
        push_command(&mut self.text, command);
        Ok(())
    }

    /// Goes back by the last `count` commands, or by all if there are fewer. The chip is made anew,
    /// by the commands that are left. Answers the transcript as it was. Fails only when out of
    /// memory; then the session is as it was.
    pub fn back(&mut self, alloc: Global, count: u64) -> Result<String, AllocError>
        ensures back { OnOk result (IsBack count self.old self.new) }
        ensures text { IfOk result (λ text. string_bytes text ≡ self.old.text) }
        ensures same { OnErr result (self.new ≡ self.old) }
    {
        let text = text_before(alloc, self.text.as_str(), count)?;
        match opened(alloc, text.as_str()) {
            Ok((program, chip)) => Ok(
                replace(
                    self,
                    Live {
                        text,
                        program,
                        chip,
                    },
                )
                .text,
            ),
            Err(error) => match error {
                TranscriptError::Memory => Err(AllocError),
                _ => unreachable!(),
            },
        }
    }

    /// The transcript, without the replies to commands that were said.
    pub fn text(&self) -> &str
        ensures { result.now ≡ self.now.text }
    {
        self.text.as_str()
    }

    /// The chip behind the last command.
    pub fn chip(&self) -> &Chip
        ensures { result.now ≡ self.now.chip }
    {
        &self.chip
    }

    /// The images of the program of the head.
    pub fn images(&self) -> &Images
        ensures { result.now ≡ self.now.program.images }
    {
        &self.program.images
    }

    /// The session as a transcript with its replies, as [`record`] writes it, ended by LF. Fails as
    /// that.
    pub fn transcript(&self, alloc: Global) -> Result<String, TranscriptError>
        ensures recorded { Answers string_bytes (IsRecorded (self.now.text ++ 10 ∷ [])) result }
        // `check` accepts it
        ensures holds { IfOk result (λ recording. Holds (string_bytes recording)) }
    {
        let text = ended(alloc, self.text.as_str())?;
        record(alloc, text.as_str())
    }
}

/// Adds the line of a command to a text that has room for it.
fn push_command(text: &mut String, command: &str)
    requires { length (string_bytes text.old) + length command.now + 3
        ≤ string_capacity text.old }
    ensures { string_bytes text.new ≡ string_bytes text.old ++ 10 ∷ (codes "> " ++ command.now) }
{
    text.push_str("\n> ").unwrap();
    text.push_str(command).unwrap();
}

/// A text with an LF behind it.
fn ended(alloc: Global, text: &str) -> Result<String, AllocError>
    ensures { IfOk result (λ ended. string_bytes ended ≡ text.now ++ 10 ∷ []) }
{
    let mut ended = String::from_str(alloc, text)?;
    ended.push('\n')?;
    Ok(ended)
}

/// The program of a transcript and the chip behind its last command, or the first fault.
fn opened(alloc: Global, text: &str) -> Result<(Program, Chip), TranscriptError>
    ensures { Answers (λ opened. record
        { text = text.now; program = opened.0; chip = opened.1 }) (IsOpened text.now) result }
{
    let loaded = load(alloc, text)?;
    let left = LinesLeft {
        number: loaded.line,
        lines: loaded.lines.again(),
    };
    if let Some(line) = early_reply(left) {
        return Err(TranscriptError::EarlyReply(line));
    }
    let program = loaded.program;
    let chip = chip_behind(alloc, &program, loaded.lines)?;
    Ok((program, chip))
}

/// The chip behind the commands of lines.
fn chip_behind(alloc: Global, program: &Program, lines: Pieces<'_>) -> Result<Chip, AllocError>
    ensures { IfOk result (λ end. end ≡ state_behind (step_of program.now)
        program.now.start lines.entry) }
{
    let mut chip = program.start.copied(alloc)?;
    let mut came = String::new(alloc);
    for line in lines {
        if let Line::Command(command) = line_of(line) {
            reply_or_refusal(alloc, &mut came, &mut chip, Some(program), command)?;
        }
    }
    Ok(chip)
}

/// A transcript without its last `count` commands and what stands behind these.
fn text_before(alloc: Global, text: &str, count: u64) -> Result<String, AllocError>
    requires { (live : LiveView) × IsOpened text.now (Ok live) }
    ensures { IfOk result (λ before. IsBefore count text.now (string_bytes before)) }
{
    match load(alloc, text) {
        Ok(loaded) => {
            let commands = command_count(loaded.lines.again());
            let mut before = front(alloc, text, loaded.line)?;
            push_before(&mut before, loaded.lines, commands.saturating_sub(count))?;
            Ok(before)
        }
        Err(error) => match error {
            ReplayError::Memory => Err(AllocError),
            _ => unreachable!(),
        },
    }
}

/// How many lines are commands.
fn command_count(lines: Pieces<'_>) -> u64
    requires { length lines < 2 ^ 64 }
    ensures { result ≡ command_count lines.entry }
{
    let mut count = 0;
    for line in lines {
        if let Line::Command(_) = line_of(line) {
            count += 1;
        }
    }
    count
}

/// Adds the lines before the command of a number, which counts from 0, each behind an LF.
fn push_before(text: &mut String, lines: Pieces<'_>, number: u64) -> Result<(), AllocError>
    ensures { OnOk result (string_bytes text.new
        ≡ string_bytes text.old ++ behind_ends (before_command number lines.entry)) }
{
    let mut left = number;
    for line in lines {
        if let Line::Command(_) = line_of(line) {
            if left == 0 {
                return Ok(());
            }
            left -= 1;
        }
        push_line(text, line)?;
    }
    Ok(())
}

/// A text without the LF at its end.
pub fn without_line_end(alloc: Global, text: &str) -> Result<String, AllocError>
    ensures { IfOk result (λ trimmed. string_bytes trimmed ≡ without_line_end text.now) }
{
    let mut trimmed = String::from_str(alloc, text)?;
    if trimmed.as_bytes().last() == Some(&b'\n') {
        trimmed.truncate(trimmed.len() - 1);
    }
    Ok(trimmed)
}
