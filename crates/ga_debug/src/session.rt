ghost use Rattle.std.specs.Prelude.{◌≡◌, ◌⊎◌, IfErr, IfOk, None, OnErr, OnOk, Err, Ok, option_map, string_bytes};
ghost use Rattle.ga_debug.specs.Session.{done_by, replied, text_or_refusal};
ghost use Rattle.ga_debug.specs.declared.error.DebugError.TheVariants.{Memory};

use crate::beginning::Program;
use crate::command::{Command, command_in};
use crate::commands::{ANSWER_LENGTH, Verb, images_of, note_of, perform, push_answer, show, tell};
use crate::error::DebugError;
use crate::hint::push_hint;
use ga_chip::Chip;
use std::alloc::{AllocError, Global};
use std::fmt::Write;
use std::marker::Model;

/// A chip that commands inspect, stop and run. A contract sees the chip.
#[derive(Drop)]
pub struct Session {
    chip: Chip,
}

impl Model for Session {
    ghost use Rattle.ga_chip.specs.Chip as model;
    ghost use Rattle.std.specs.Prelude.{⊤};

    ghost Value = { model.Chip };

    ghost view = { λ session. session.chip };

    ghost invariant = { λ session. ⊤ };
}

impl Session {
    /// A session over a chip. It allocates nothing.
    pub fn new(chip: Chip) -> Self
        ensures { result ≡ chip }
    {
        Session { chip }
    }

    /// The reply to a command, without an LF at its end.
    pub fn command(&mut self, alloc: Global, line: &str) -> Result<String, DebugError>
        ensures replied { IfOk result (λ text.
            replied None line.now self.old ≡ (Ok (string_bytes text), self.new)) }
        ensures refused { IfErr result (λ error. (error ≡ Memory)
            ⊎ (replied None line.now self.old ≡ (Err error, self.old))) }
        ensures same { OnErr result (self.new ≡ self.old) }
    {
        let mut text = String::new(alloc);
        reply_into(alloc, &mut text, &mut self.chip, None, line)?;
        Ok(text)
    }
}

/// Replaces a text by the reply of a chip to a command, without an LF at its end. With a program
/// the command is one of a transcript, whose head loads it; without, one of a session. Fails with
/// [`DebugError::Memory`] only when out of memory; then chip and text are as they were.
pub fn reply_into(
    alloc: Global,
    text: &mut String,
    chip: &mut Chip,
    program: Option<&Program>,
    line: &str,
) -> Result<(), DebugError>
    ensures replied { OnOk result (
        replied (option_map (λ program. program.now) program.entry) line.now chip.old
        ≡ (Ok (string_bytes text.new), chip.new)) }
    ensures refused { IfErr result (λ error. (error ≡ Memory)
        ⊎ (replied (option_map (λ program. program.now) program.entry) line.now chip.old
        ≡ (Err error, chip.old))) }
    ensures same { OnErr result (chip.new ≡ chip.old) }
    ensures same_text { OnErr result (string_bytes text.new ≡ string_bytes text.old) }
{
    match command_in(images_of(program), line) {
        Ok(command) => reply_to(alloc, text, chip, program, &command),
        Err(fault) => Err(fault),
    }
}

/// Replaces a text by the reply to a command.
fn reply_to(
    alloc: Global,
    text: &mut String,
    chip: &mut Chip,
    program: Option<&Program>,
    command: &Command,
) -> Result<(), DebugError>
    ensures replied { OnOk result (
        done_by (option_map (λ program. program.now) program.entry) command.now.verb
        command.now.given chip.old
        ≡ (Ok (string_bytes text.new), chip.new)) }
    ensures refused { IfErr result (λ error. (error ≡ Memory)
        ⊎ (done_by (option_map (λ program. program.now) program.entry) command.now.verb
        command.now.given chip.old
        ≡ (Err error, chip.old))) }
    ensures same { OnErr result (chip.new ≡ chip.old) }
    ensures same_text { OnErr result (string_bytes text.new ≡ string_bytes text.old) }
{
    let given = &command.given;
    match command.verb {
        Verb::Act(action) => {
            // Before the action, so that it is refused as a whole.
            let note = note_of(alloc, images_of(program), action, given)?;
            text.reserve(ANSWER_LENGTH)?;
            let answer = perform(chip, action, given)?;
            text.clear();
            push_answer(text, answer);
            text.push_str(note).unwrap();
        }
        Verb::Tell(follow) => {
            // On a copy, so that the command is refused as a whole.
            let mut next = chip.copied(alloc)?;
            *text = tell(alloc, &mut next, images_of(program), follow, given)?;
            *chip = next;
        }
        Verb::Show(view) => *text = show(alloc, chip, program, view, given)?,
    }
    Ok(())
}

/// Replaces a text by the reply to a command, as [`reply_into`], and by `refused` and the fault's
/// name if it is refused. A transcript's refusal names the nearest label, if one may be meant.
/// Fails only when out of memory, and the chip is then as it was.
pub fn reply_or_refusal(
    alloc: Global,
    text: &mut String,
    chip: &mut Chip,
    program: Option<&Program>,
    line: &str,
) -> Result<(), AllocError>
    ensures text { OnOk result (string_bytes text.new
        ≡ text_or_refusal (option_map (λ program. program.now) program.entry) line.now
        (replied (option_map (λ program. program.now) program.entry) line.now chip.old).0) }
    ensures chip { OnOk result (chip.new
        ≡ (replied (option_map (λ program. program.now) program.entry) line.now chip.old).1) }
    ensures same { OnErr result (chip.new ≡ chip.old) }
{
    match reply_into(alloc, text, chip, program, line) {
        Ok(()) => Ok(()),
        Err(DebugError::Memory) => Err(AllocError),
        Err(fault) => refusal(alloc, text, program, line, fault),
    }
}

/// Replaces a text by a refusal.
fn refusal(
    alloc: Global,
    text: &mut String,
    program: Option<&Program>,
    line: &str,
    fault: DebugError,
) -> Result<(), AllocError>
    ensures { OnOk result (string_bytes text.new
        ≡ text_or_refusal (option_map (λ program. program.now) program.entry) line.now
        (Err fault)) }
{
    text.clear();
    write!(text, "refused {}", fault.name())?;
    push_hint(alloc, text, program, line, fault)
}
