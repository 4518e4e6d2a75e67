ghost use Rattle.std.specs.Prelude.{◌≡◌, ◌+◌, ◌<◌, ◌≤◌, ◌^◌, IfErr, IfOk, Err, Ok, length};
ghost use Rattle.ga_asm.specs.Text.{AtMostOne};
ghost use Rattle.ga_debug.specs.ReplayError.{Answers};
ghost use Rattle.ga_debug.specs.Replaying.{IsReplayed, comparisons, fault_of_line, is_same, line_on, lines_on, same_outcome, stated_answer, statement_in, word_behind_sign};

use crate::beginning::chip_after;
use crate::command::{Arguments, command_first};
use crate::commands::{Action, Answer, Verb};
use crate::error::DebugError;
use crate::head::head_of;
use crate::pieces::Pieces;
use crate::profile::{Profile, perform_as, profile_of};
use crate::replay_error::ReplayError;
use crate::row::{Scope, States};
use crate::word::{decimal_of, outcome_of};
use ga_chip::{Chip, Outcome};
use std::alloc::Global;

/// The fault of a line of commands, with its number.
#[derive(Clone, Copy)]
pub(crate) enum LineError {
    /// The command is refused.
    Bad(u64, DebugError),
    /// The result isn't the one that the line states.
    Differs(u64),
}

impl From<LineError> for ReplayError {
    ghost from_gives = { λ error fault. fault ≡ fault_of_line error };

    fn from(error: LineError) -> ReplayError {
        match error {
            LineError::Bad(line, fault) => ReplayError::Bad(line, fault),
            LineError::Differs(line) => ReplayError::Differs(line),
        }
    }
}

/// An action of a line, and what is stated of it.
#[derive(Clone, Copy)]
pub(crate) struct Statement {
    action: Action,
    given: Arguments,
    stated: Answer,
}

/// Runs the commands of a replay text on the chip of its head, and compares the result of each with
/// the one that its line states. Answers how many stated outcomes were compared, or the first
/// fault: of the head, or line by line [`ReplayError::Bad`] if the command is refused and
/// [`ReplayError::Differs`] if its result is another. Fails with [`ReplayError::Memory`] only when
/// out of memory, and takes time in proportion to the text, the tries and the turns.
///
/// A text whose first line is `profile 1` is for the chip without extended mode: a node that is
/// about to fetch with bit 9 of P set counts as stopped. Each other text is one of profile 2. (The
/// texts are this project's own: profile.)
#[tactic(auto, using(crate::proofs::OneReplay::one_replayed))]
pub fn replay(alloc: Global, text: &str) -> Result<u64, ReplayError>
    ensures replayed { Answers (λ count. count) (IsReplayed text.now) result }
    // a text has one count, or one first fault
    ensures only { AtMostOne (IsReplayed text.now) }
{
    let profile = profile_of(text);
    let head = head_of(alloc, profile, text)?;
    let chip = chip_after(alloc, &head)?;
    let count = follow(chip, profile, head.line + 1, head.lines)?;
    Ok(count)
}

/// Goes along lines, of which the first has a number.
fn follow(mut chip: Chip, profile: Profile, first: u64, lines: Pieces<'_>) -> Result<u64, LineError>
    requires { first + length lines < 2 ^ 64 }
    ensures { result ≡ lines_on profile first 0 chip lines.entry }
{
    let mut line = first;
    let mut count = 0;
    for text in lines {
        count += line_on(&mut chip, profile, line, text)?;
        line += 1;
    }
    Ok(count)
}

/// One line, with its number. Answers how many outcomes were compared, one at most.
#[tactic(auto, unfolding(crate::specs::Replaying::line_on))]
fn line_on(chip: &mut Chip, profile: Profile, line: u64, text: &str) -> Result<u64, LineError>
    ensures holds { IfOk result (λ more.
        line_on profile line chip.old text.now ≡ Ok (more, chip.new)) }
    ensures one { IfOk result (λ more. more ≤ 1) }
    ensures fault { IfErr result (λ fault. line_on profile line chip.old text.now ≡ Err fault) }
{
    if text.is_empty() {
        return Ok(0);
    }
    let statement = match statement_in(text) {
        Ok(statement) => statement,
        Err(fault) => return Err(LineError::Bad(line, fault)),
    };
    match perform_as(chip, profile, statement.action, &statement.given) {
        Ok(answer) => {
            if !is_same(answer, statement.stated) {
                return Err(LineError::Differs(line));
            }
            Ok(comparisons(answer))
        }
        Err(fault) => Err(LineError::Bad(line, fault)),
    }
}

/// The action of a line, and what is stated of it.
#[tactic(auto, unfolding(crate::specs::Replaying::statement_in))]
fn statement_in(line: &str) -> Result<Statement, DebugError>
    ensures { result ≡ statement_in line.now }
{
    let mut words = Pieces::new(line, ' ');
    let command = command_first(Scope::Replays, None, &mut words)?;
    // no command of replays shows anything
    let Verb::Act(action) = command.verb else {
        return Err(DebugError::BadCommand);
    };
    let stated = stated_answer(command.verb.row().states, &mut words)?;
    Ok(Statement {
        action,
        given: command.given,
        stated,
    })
}

/// What is stated of an action.
#[tactic(auto, unfolding(crate::specs::Replaying::stated_answer))]
fn stated_answer(states: States, words: &mut Pieces<'_>) -> Result<Answer, DebugError>
    ensures { result ≡ stated_answer states words.old }
{
    match states {
        States::Outcome => {
            let word = word_behind_sign(words)?;
            match outcome_of(word.as_bytes()) {
                Some(outcome) => Ok(Answer::Tried(outcome)),
                None => Err(DebugError::BadCommand),
            }
        }
        States::Steps => {
            let word = word_behind_sign(words)?;
            match decimal_of(word.as_bytes(), 9) {
                Some(steps) => Ok(Answer::Moved(u64::from(steps))),
                None => Err(DebugError::BadCommand),
            }
        }
        States::Nothing => match words.next() {
            None => Ok(Answer::Done),
            Some(_) => Err(DebugError::BadCommand),
        },
    }
}

/// The word behind `=`, with nothing behind it.
fn word_behind_sign<'a>(words: &mut Pieces<'a>) -> Result<&'a str, DebugError>
    ensures word { IfOk result (λ word. word_behind_sign words.old ≡ Ok word.now) }
    ensures bad { IfErr result (λ fault. word_behind_sign words.old ≡ Err fault) }
{
    match (words.next(), words.next(), words.next()) {
        (Some(sign), Some(word), None) if sign == "=" => Ok(word),
        _ => Err(DebugError::BadCommand),
    }
}

/// Whether an answer is the stated one.
fn is_same(answer: Answer, stated: Answer) -> bool
    ensures { result ≡ is_same answer stated }
{
    match (answer, stated) {
        (Answer::Done, Answer::Done) => true,
        (Answer::Tried(one), Answer::Tried(other)) => same_outcome(one, other),
        (Answer::Moved(one), Answer::Moved(other)) => one == other,
        _ => false,
    }
}

fn same_outcome(one: Outcome, other: Outcome) -> bool
    ensures { result ≡ same_outcome one other }
{
    matches!(
        (one, other),
        (Outcome::Moved, Outcome::Moved)
            | (Outcome::Waits, Outcome::Waits)
            | (Outcome::Held, Outcome::Held)
            | (Outcome::Stopped, Outcome::Stopped)
    )
}

/// How many stated outcomes an answer is compared with.
fn comparisons(answer: Answer) -> u64
    ensures value { result ≡ comparisons answer }
    ensures one { result ≤ 1 }
{
    match answer {
        Answer::Tried(_) | Answer::Moved(_) => 1,
        Answer::Done | Answer::Reached(_) | Answer::Ran(_) => 0,
    }
}
