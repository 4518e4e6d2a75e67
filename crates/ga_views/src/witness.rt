//! The witness of a race: a transcript up to the moment at which both words are there.
ghost use Rattle.std.specs.Prelude.{◌≡◌, ◌<◌, ◌^◌, ◌++◌, IfOk, OnOk, codes, string_bytes};
ghost use Rattle.ga_chip.specs.Run.{ran, turns_of};
ghost use Rattle.ga_debug.specs.Word.{side_letter};
ghost use Rattle.ga_input.specs.Fault.{Answers};
ghost use Rattle.ga_race.specs.Way.{IsBefore};
ghost use Rattle.ga_views.specs.Witness.{IsRecording, IsWitness, LeadsTo, first_comment, head_before_go, last_comment, lines_to_go, ports_line, quoted_try, regs_line, try_line, try_lines, turn_line, words_shown};
ghost use Rattle.ga_views.specs.inner.Witness.{HasShown, IsSessionOf};

use ga_chip::{Chip, Try};
use ga_debug::Pieces;
use ga_input::{
    INPUT_LIMIT, Loading, OutputFault, ServeError, is_head, push_source_head,
    shown_transcript_fault,
};
use ga_place::{Node, Side};
use ga_race::{Race, SideWord, way_to};
use ga_transcript::record;
use std::alloc::{AllocError, Global};
use std::fmt::Write;

/// A transcript that leads a fresh chip of an input to the moment at which both words of a race are
/// pending, and shows them. It is refused if it has more bytes than an input may have.
pub fn witness_text(
    alloc: Global,
    loading: &Loading,
    input: &str,
    mut chip: Chip,
    race: &Race,
) -> Result<String, ServeError>
    ensures { HasShown chip race.now
        → Answers string_bytes (IsWitness loading.now input.now chip race.now) result }
{
    let session = session_text(alloc, loading, input, &mut chip, race)?;
    recording(alloc, session.as_str())
}

/// What is recorded of a session, if neither has more bytes than an input may have.
fn recording(alloc: Global, session: &str) -> Result<String, ServeError>
    ensures { Answers string_bytes (IsRecording session.now) result }
{
    if session.len() > INPUT_LIMIT {
        return Err(ServeError::Output(OutputFault::TooLong));
    }
    let recording = match record(alloc, session) {
        Ok(recording) => recording,
        Err(error) => return Err(shown_transcript_fault(alloc, session, error)?),
    };
    if recording.len() > INPUT_LIMIT {
        return Err(ServeError::Output(OutputFault::TooLong));
    }
    Ok(recording)
}

/// The session of a witness, without the replies.
fn session_text(
    alloc: Global,
    loading: &Loading,
    input: &str,
    chip: &mut Chip,
    race: &Race,
) -> Result<String, AllocError>
    ensures { IfOk result (λ session. HasShown chip.old race.now
        → IsSessionOf loading.now input.now chip.old race.now (string_bytes session)) }
{
    let mut text = String::new(alloc);
    push_head(alloc, &mut text, loading, input)?;
    push_first_comment(&mut text, race)?;
    push_turns(&mut text, race.take.turn)?;
    let way = way_of(alloc, chip, race)?;
    push_way(&mut text, way.as_slice())?;
    push_both_words(&mut text, race)?;
    Ok(text)
}

/// The tries that lead to both words, behind the turns before the one in which a word is read.
fn way_of(alloc: Global, chip: &mut Chip, race: &Race) -> Result<Vec<Try>, AllocError>
    ensures { IfOk result (λ way. HasShown chip.old race.now
        → LeadsTo chip.old race.now way.items) }
{
    chip.legal();
    make_turns(chip, race.take.turn);
    way_to(alloc, chip, race)
}

/// Makes turns. A run has at most 2^32 - 1.
fn make_turns(chip: &mut Chip, turns: u64)
    ensures { turns < 2 ^ 32 → chip.new ≡ ran chip.old (turns_of turns) }
{
    let turns = turns.min(u64::from(u32::MAX)) as u32;
    let _moved = chip.turns(turns);
}

/// Adds the line that makes turns, if there are any.
fn push_turns(text: &mut String, turns: u64) -> Result<(), AllocError>
    ensures { OnOk result (string_bytes text.new ≡ string_bytes text.old ++ turn_line turns) }
{
    if turns > 0 {
        writeln!(text, "> turn {turns}")?;
    }
    Ok(())
}

/// Adds a line for each try.
fn push_way(text: &mut String, way: &[Try]) -> Result<(), AllocError>
    ensures { OnOk result (string_bytes text.new ≡ string_bytes text.old ++ try_lines way.now) }
{
    for step in way {
        push_step(text, step)?;
    }
    Ok(())
}

/// Adds the line of a try.
#[tactic(auto, unfolding(crate::specs::Witness::try_line))]
fn push_step(text: &mut String, step: &Try) -> Result<(), AllocError>
    ensures { OnOk result (string_bytes text.new ≡ string_bytes text.old ++ try_line step.now) }
{
    writeln!(text, "> try {} {}", step.node, letter(step.side))
}

/// Adds the commands that show both words and their reader, and the choice.
#[tactic(auto, unfolding(crate::specs::Witness::words_shown))]
fn push_both_words(text: &mut String, race: &Race) -> Result<(), AllocError>
    ensures { OnOk result (string_bytes text.new
        ≡ string_bytes text.old ++ words_shown race.now) }
{
    push_ports(text, race.take.taken.writer)?;
    push_ports(text, race.left_out.writer)?;
    push_regs(text, race.take.reader)?;
    push_choice(text, race)?;
    Ok(())
}

/// Adds the command that shows the ports of a node.
#[tactic(auto, unfolding(crate::specs::Witness::ports_line))]
fn push_ports(text: &mut String, node: Node) -> Result<(), AllocError>
    ensures { OnOk result (string_bytes text.new ≡ string_bytes text.old ++ ports_line node) }
{
    writeln!(text, "> ports {node}")
}

/// Adds the command that shows the registers of a node.
#[tactic(auto, unfolding(crate::specs::Witness::regs_line))]
fn push_regs(text: &mut String, node: Node) -> Result<(), AllocError>
    ensures { OnOk result (string_bytes text.new ≡ string_bytes text.old ++ regs_line node) }
{
    writeln!(text, "> regs {node}")
}

/// Adds the head that loads an input, with its line `go`.
fn push_head(
    alloc: Global,
    text: &mut String,
    loading: &Loading,
    input: &str,
) -> Result<(), AllocError>
    ensures { OnOk result (string_bytes text.new
        ≡ string_bytes text.old ++ head_before_go loading.now input.now ++ codes "go\n") }
{
    if is_head(loading, input) {
        push_lines_to_go(text, Pieces::new(input, '\n'))?;
    } else {
        push_source_head(alloc, text, loading, input)?;
    }
    text.push_str("go\n")
}

/// Adds lines up to the line `go`, each ended by LF.
pub(crate) fn push_lines_to_go(text: &mut String, lines: Pieces<'_>) -> Result<(), AllocError>
    ensures { OnOk result (string_bytes text.new
        ≡ string_bytes text.old ++ lines_to_go lines.entry) }
{
    for line in lines {
        if line == "go" {
            return Ok(());
        }
        text.push_str(line)?;
        text.push_str("\n")?;
    }
    Ok(())
}

/// Adds a comment on what comes.
#[tactic(auto, unfolding(crate::specs::Witness::first_comment))]
fn push_first_comment(text: &mut String, race: &Race) -> Result<(), AllocError>
    ensures { OnOk result (string_bytes text.new
        ≡ string_bytes text.old ++ first_comment race.now) }
{
    writeln!(text, "\\ both words come before {} reads", race.take.reader)
}

/// Adds a comment with the two tries that differ.
#[tactic(auto, unfolding(crate::specs::Witness::last_comment))]
fn push_choice(text: &mut String, race: &Race) -> Result<(), AllocError>
    ensures { OnOk result (string_bytes text.new
        ≡ string_bytes text.old ++ last_comment race.now) }
{
    text.push_str("\\ now ")?;
    push_try(text, race, &race.take.taken)?;
    text.push_str(" takes the word of ")?;
    write!(text, "{}, and ", race.take.taken.writer)?;
    push_try(text, race, &race.left_out)?;
    writeln!(text, " that of {}", race.left_out.writer)
}

/// Adds the try that takes the word of a sender.
#[tactic(auto, unfolding(crate::specs::Witness::quoted_try))]
fn push_try(text: &mut String, race: &Race, word: &SideWord) -> Result<(), AllocError>
    ensures { OnOk result (string_bytes text.new
        ≡ string_bytes text.old ++ quoted_try race.now word.now) }
{
    write!(text, "`try {} {}`", race.take.reader, letter(word.side))
}

/// The letter of a side in a command.
fn letter(side: Side) -> &'static str
    ensures { result.now ≡ side_letter side }
{
    match side {
        Side::Right => "r",
        Side::Down => "d",
        Side::Left => "l",
        Side::Up => "u",
    }
}
