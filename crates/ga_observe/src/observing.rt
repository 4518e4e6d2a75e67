ghost use Rattle.std.specs.Prelude.{◌≡◌, ◌==◌, ◌+◌, ◌<◌, ◌≤◌, if◌then◌else◌, length};
ghost use Rattle.std.specs.List.{enumerate_from};
ghost use Rattle.ga_chip.specs.Chip.{tried};
ghost use Rattle.ga_chip.specs.Outcome.{moved_by};
ghost use Rattle.ga_chip.specs.Run.{Try as try_event, moves, ran, side_of_turn, tries_of, turn_of, turns_of};
ghost use Rattle.ga_observe.specs.Seen.{Sees, numbered, steps_in, steps_seen, turns_numbered};

use crate::next::next_step;
use crate::observer::Observer;
use ga_chip::{Chip, Outcome, Try, side_of_turn};
use ga_place::Node;

/// One try of one node, as `Chip::attempt` makes it. If it is `Moved`, the observer sees the step,
/// with this number of its turn.
#[inline]
pub fn attempt<O: Observer>(chip: &mut Chip, observer: &mut O, what: Try, turn: u64) -> Outcome
    ensures chip { (result, chip.new) ≡ tried chip.old what.node what.side }
    ensures seen { Sees O.has_seen observer.old observer.new
        (steps_in turn chip.old (try_event what.node what.side)) }
{
    let Try { node, side } = what;
    let step = next_step(chip, node, side, turn);
    let outcome = chip.attempt(what);
    if let Outcome::Moved = outcome {
        observer.see(step);
    }
    outcome
}

/// Tries in order, as `Chip::run` makes them. The observer sees the steps, each with the index of
/// its try.
pub fn run<O: Observer>(chip: &mut Chip, observer: &mut O, tries: &[Try])
    ensures chip { chip.new ≡ ran chip.old (tries_of tries.now) }
    ensures seen { Sees O.has_seen observer.old observer.new
        (steps_seen chip.old (enumerate_from 0 (tries_of tries.now))) }
{
    for (index, what) in tries.iter().enumerate() {
        let _outcome = attempt(chip, observer, *what, index as u64);
    }
}

/// The turn of a number, counted from 0: one try of each node in order of name, all with the side
/// that `side_of_turn` gives. Answers how many were `Moved`. The observer sees their steps.
pub fn turn<O: Observer>(chip: &mut Chip, observer: &mut O, number: u64) -> u8
    ensures chip { chip.new ≡ ran chip.old (turn_of (side_of_turn number)) }
    ensures moved { result ≡ length (moves chip.old (turn_of (side_of_turn number))) }
    ensures seen { Sees O.has_seen observer.old observer.new
        (steps_seen chip.old (numbered number (turn_of (side_of_turn number)))) }
{
    let side = side_of_turn(number);
    let mut moved = 0;
    for index in 0..144 {
        let node = Node::at(index);
        moved += attempt_step(chip, observer, Try { node, side }, number);
    }
    moved
}

/// One try of one node in the turn of a number, as `attempt` makes it. Answers how many steps it
/// made, 0 or 1. A node that sleeps isn't looked at.
#[inline]
fn attempt_step<O: Observer>(chip: &mut Chip, observer: &mut O, what: Try, turn: u64) -> u8
    ensures chip { chip.new ≡ (tried chip.old what.node what.side).1 }
    ensures moved { result ≡ moved_by (tried chip.old what.node what.side).0 }
    ensures seen { Sees O.has_seen observer.old observer.new
        (steps_in turn chip.old (try_event what.node what.side)) }
{
    if chip.is_asleep(what.node) {
        return 0;
    }
    attempt(chip, observer, what, turn).moves()
}

/// Makes `count` turns, as `Chip::turns` makes them. Answers how many tries were `Moved` in all.
/// The observer sees their steps, each with the number of its turn, counted from 0. After four
/// turns without a step no node can move, and the turns that are left are left out.
pub fn turns<O: Observer>(chip: &mut Chip, observer: &mut O, count: u32) -> u64
    ensures chip { chip.new ≡ ran chip.old (turns_of count) }
    ensures moved { result ≡ length (moves chip.old (turns_of count)) }
    ensures seen { Sees O.has_seen observer.old observer.new
        (steps_seen chip.old (turns_numbered count)) }
{
    let mut moved = 0;
    let mut quiet = 0;
    for number in 0..u64::from(count) {
        let steps = turn(chip, observer, number);
        moved += u64::from(steps);
        quiet = quiet_after(quiet, steps);
        if quiet == 4 {
            return moved;
        }
    }
    moved
}

/// How many turns in a row had no step, after one more turn with this many.
fn quiet_after(quiet: u8, steps: u8) -> u8
    requires { quiet < 4 }
    ensures value { result ≡ (if steps == 0 then quiet + 1 else 0) }
    ensures bound { result ≤ quiet + 1 }
{
    if steps == 0 { quiet + 1 } else { 0 }
}
