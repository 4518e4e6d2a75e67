#![tactic(auto, unfolding(crate::specs::Profile::did_as))]

ghost use Rattle.std.specs.Prelude.{◌≡◌, ◌<◌, ℕ, false, true};
ghost use Rattle.ga_place.specs.Cell.{name_at};
ghost use Rattle.ga_chip.specs.Outcome.{moved_by};
ghost use Rattle.ga_debug.specs.Profile.{did_as, tried_in_profile_1, turn_in_profile_1, turns_in_profile_1, is_left_out, profile_in, profile_line};

use crate::command::Arguments;
use crate::commands::{Action, Answer, perform};
use crate::error::DebugError;
use crate::pieces::Pieces;
use ga_chip::{Chip, Outcome, Try, side_of_turn};
use ga_node::Place;
use ga_place::{Node, Side};

/// The profile of a replay text.
#[derive(Clone, Copy)]
pub(crate) enum Profile {
    /// The chip without extended mode: a node that is about to fetch with bit 9 of P set counts as
    /// stopped.
    One,
    /// The chip itself.
    Two,
}

impl Profile {
    /// The first line of its texts.
    pub(crate) fn line(self) -> &'static str
        ensures { result.now ≡ profile_line self }
    {
        match self {
            Profile::One => "profile 1",
            Profile::Two => "profile 2",
        }
    }
}

/// The profile of a text: the first if its first line is `profile 1`, else the second.
#[tactic(auto, unfolding(crate::specs::Profile::profile_in))]
pub(crate) fn profile_of(text: &str) -> Profile
    ensures { result ≡ profile_in text.now }
{
    let mut lines = Pieces::new(text, '\n');
    match lines.next() {
        Some(line) if line == Profile::One.line() => Profile::One,
        _ => Profile::Two,
    }
}

/// Runs an action by the rules of a profile. A refused one leaves the chip as it was.
pub(crate) fn perform_as(
    chip: &mut Chip,
    profile: Profile,
    action: Action,
    given: &Arguments,
) -> Result<Answer, DebugError>
    ensures { (result, chip.new) ≡ did_as profile action given.now chip.old }
{
    let node = given.node;
    match (profile, action) {
        (Profile::One, Action::Pass) if is_left_out(chip, node) => Err(DebugError::NotHeld),
        (Profile::One, Action::Try) => Ok(Answer::Tried(try_in_profile_1(chip, node, given.side))),
        (Profile::One, Action::Turn) => Ok(Answer::Moved(turns_in_profile_1(chip, given.count))),
        _ => perform(chip, action, given),
    }
}

/// Whether the first profile stops a node: a fetch in extended mode is next.
#[tactic(auto, unfolding(crate::specs::Profile::is_left_out))]
fn is_left_out(chip: &Chip, node: Node) -> bool
    ensures { result ≡ is_left_out chip.now node }
{
    let state = chip.state(node);
    matches!(state.place(), Place::Fetch) && state.is_extended()
}

/// A try in the first profile. One of a node that it stops isn't attempted.
fn try_in_profile_1(chip: &mut Chip, node: Node, side: Side) -> Outcome
    ensures { (result, chip.new) ≡ tried_in_profile_1 chip.old node side }
{
    if is_left_out(chip, node) {
        return Outcome::Stopped;
    }
    chip.attempt(Try { node, side })
}

/// `count` turns in the first profile. Answers how many steps they made. Turns that would change
/// nothing, since the last ones with each side have not, are left out.
fn turns_in_profile_1(chip: &mut Chip, count: u32) -> u64
    ensures { (result, chip.new) ≡ turns_in_profile_1 count 0 0 chip.old }
{
    let mut moved = 0;
    // How many turns directly before this one made no step.
    let mut idle: u8 = 0;
    for turn in 0..count {
        let steps = turn_in_profile_1(chip, side_of_turn(u64::from(turn)));
        moved += u64::from(steps);
        idle = if steps == 0 { idle + 1 } else { 0 };
        if idle == 4 {
            return moved;
        }
    }
    moved
}

/// A turn in the first profile. Answers how many steps it made.
fn turn_in_profile_1(chip: &mut Chip, side: Side) -> u8
    ensures { (result, chip.new) ≡ turn_in_profile_1 side chip.old }
{
    if all_take_part(chip) {
        return chip.turn(side);
    }
    let mut moved = 0;
    for index in 0..144 {
        moved += steps_in_profile_1(chip, Node::at(index), side);
    }
    moved
}

/// A try in the first profile. Answers how many steps it made. A node that sleeps isn't looked at.
fn steps_in_profile_1(chip: &mut Chip, node: Node, side: Side) -> u8
    ensures chip { chip.new ≡ (tried_in_profile_1 chip.old node side).1 }
    ensures moved { result ≡ moved_by (tried_in_profile_1 chip.old node side).0 }
{
    if chip.is_asleep(node) {
        return 0;
    }
    if is_left_out(chip, node) {
        return 0;
    }
    chip.attempt_step(Try { node, side })
}

/// Whether the first profile stops no node.
fn all_take_part(chip: &Chip) -> bool
    ensures { result ≡ true
        → (index : ℕ) → index < 144 → is_left_out chip.now (name_at index) ≡ false }
{
    for index in 0..144 {
        if is_left_out(chip, Node::at(index)) {
            return false;
        }
    }
    true
}
