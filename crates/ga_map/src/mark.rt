//! What a node does, as a mark.
ghost use Rattle.std.specs.Prelude.{◌≡◌};
ghost use Rattle.ga_map.specs.Mark as spec;
ghost use Rattle.ga_map.specs.Mark.{mark_text};

use crate::posted::{offered, posted};
use ga_chip::Chip;
use ga_node::Need;
use ga_place::{Node, Side, Sides, neighbour};
use ga_trace::spins;
use ga_waits::{has_begun, is_idle};

/// What a node does.
#[derive(Clone, Copy)]
pub(crate) enum Mark {
    /// It has made no step, and was given no words and no stream.
    NotStarted,
    /// It is held at a breakpoint.
    Held,
    /// A try can move it.
    Works,
    /// It spins.
    Spins,
    /// It waits at its idle address.
    Idle,
    /// It waits for a word.
    AwaitsWord,
    /// It waits for its word to be read.
    AwaitsReader,
    /// It has stopped.
    Stopped,
}

/// What a node does.
pub(crate) fn mark_of(chip: &Chip, node: Node) -> Mark
    ensures { result ≡ spec.mark_of chip.now node }
{
    let state = chip.state(node);
    if !has_begun(node, state) {
        Mark::NotStarted
    } else if chip.is_held(node) {
        Mark::Held
    } else if spins(chip, node) {
        Mark::Spins
    } else if goes_on(chip, node, state.need()) {
        Mark::Works
    } else if is_idle(chip, node) {
        Mark::Idle
    } else {
        waiting(state.need())
    }
}

/// What a node of this need does that no try moves.
fn waiting(need: Need) -> Mark
    ensures { result ≡ spec.waiting need }
{
    match need {
        Need::Own => Mark::Works,
        Need::Take(_) | Need::Input => Mark::AwaitsWord,
        Need::Post(_, _) | Need::Check(_) => Mark::AwaitsReader,
        Need::Stopped(_) => Mark::Stopped,
    }
}

/// Whether a try moves a node of this need that isn't held.
fn goes_on(chip: &Chip, node: Node, need: Need) -> bool
    ensures { result ≡ spec.goes_on chip.now node need }
{
    match need {
        Need::Own => true,
        Need::Take(sides) => takes_one(chip, node, sides),
        Need::Post(side, _) => neighbour(node, side).is_some(),
        Need::Check(side) => posted(chip, node, side).is_none(),
        Need::Input => chip.stream_left(node) != 0,
        Need::Stopped(_) => false,
    }
}

/// Whether a word is pending for a node at one of some sides.
fn takes_one(chip: &Chip, node: Node, sides: Sides) -> bool
    ensures { result ≡ spec.takes_one chip.now node sides }
{
    takes_at(chip, node, sides, Side::Right)
        || takes_at(chip, node, sides, Side::Down)
        || takes_at(chip, node, sides, Side::Left)
        || takes_at(chip, node, sides, Side::Up)
}

/// Whether a side is one of these, and a word is pending for a node there.
fn takes_at(chip: &Chip, node: Node, sides: Sides, side: Side) -> bool
    ensures { result ≡ spec.takes_at chip.now node sides side }
{
    sides.has(side) && offered(chip, node, side).is_some()
}

/// A mark as three characters.
pub(crate) fn mark_text(mark: Mark) -> &'static str
    ensures { result.now ≡ mark_text mark }
{
    match mark {
        Mark::NotStarted => " . ",
        Mark::Held => "[=]",
        Mark::Works => "[#]",
        Mark::Spins => "[~]",
        Mark::Idle => "[ ]",
        Mark::AwaitsWord => "[?]",
        Mark::AwaitsReader => "[!]",
        Mark::Stopped => "[x]",
    }
}

/// Whether a node waits for a word, or for its word to be read.
pub(crate) fn is_waiting(mark: Mark) -> bool
    ensures { result ≡ spec.is_waiting mark }
{
    matches!(mark, Mark::AwaitsWord | Mark::AwaitsReader)
}
