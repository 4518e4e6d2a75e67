//! Marks of steps, by which another step finds the one that it waited for.
ghost use Rattle.std.specs.Prelude.{◌≡◌, ◌<◌, ℕ, IfSome, Option, Some, get_or, length};
ghost use Rattle.ga_profile.specs.Marks as spec;
ghost use Rattle.ga_profile.specs.NodeTurns as turns;
ghost use Rattle.ga_report.specs.inner.Trails.{NO_TRAIL};

use crate::trail::Trail;
use ga_observe::{Deed, Step};
use ga_place::{Node, Side, neighbour};

/// How many marks all nodes have.
pub(crate) const MARKS: usize = 1296;

fn side_number(side: Side) -> usize
    ensures value { result ≡ spec.side_number side }
    ensures bound { result < 4 }
{
    match side {
        Side::Right => 0,
        Side::Down => 1,
        Side::Left => 2,
        Side::Up => 3,
    }
}

/// The mark of all steps of a node.
pub(crate) fn step_mark(node: Node) -> usize
    ensures value { result ≡ spec.step_mark node }
    ensures bound { result < 1296 }
{
    node.index() * 9
}

/// The mark of the posts of a node at a side.
fn post_mark(node: Node, side: Side) -> usize
    ensures value { result ≡ spec.post_mark side node }
    ensures bound { result < 1296 }
{
    node.index() * 9 + 1 + side_number(side)
}

/// The mark of the takes of a node at a side.
fn take_mark(node: Node, side: Side) -> usize
    ensures value { result ≡ spec.take_mark side node }
    ensures bound { result < 1296 }
{
    node.index() * 9 + 5 + side_number(side)
}

/// The other mark of a step, if it posts or takes a word.
pub(crate) fn port_mark(node: Node, deed: &Deed) -> Option<usize>
    ensures value { result ≡ spec.port_mark node deed.now }
    ensures bound { IfSome result (λ mark. mark < 1296) }
{
    match *deed {
        Deed::Posted(side, _) => Some(post_mark(node, side)),
        Deed::Took { side, .. } => Some(take_mark(node, side)),
        _ => None,
    }
}

/// The mark of what a step may have waited for in another node: the post of the word that it takes,
/// or the take of the word that it saw read.
fn awaited_mark(node: Node, deed: &Deed) -> Option<usize>
    ensures value { result ≡ spec.awaited_mark node deed.now }
    ensures bound { IfSome result (λ mark. mark < 1296) }
{
    match *deed {
        Deed::Took { side, .. } => {
            let other = neighbour(node, side)?;
            Some(post_mark(other, side))
        }
        Deed::SawRead(side) => {
            let other = neighbour(node, side)?;
            Some(take_mark(other, side))
        }
        _ => None,
    }
}

/// Whether there is a first turn, and the second one isn't as late.
pub(crate) fn is_later(turn: Option<u64>, other: Option<u64>) -> bool
    ensures { result ≡ spec.is_later turn other }
{
    match (turn, other) {
        (Some(turn), Some(other)) => turn > other,
        (Some(_), None) => true,
        (None, _) => false,
    }
}

/// How many turns lie behind the last step and before a turn.
fn turns_between(last: Option<u64>, turn: u64) -> u64
    ensures { result ≡ turns.turns_between 0 last turn }
{
    match last {
        Some(last) => turn.min(turn.saturating_sub(last).saturating_sub(1)),
        None => turn,
    }
}

/// Whether a step did wait for a step of another node, by the turns of its own node's step before
/// and of the other one.
fn has_waited(turn: u64, own: Option<u64>, other: Option<u64>) -> bool
    ensures { result ≡ spec.has_waited turn own other }
{
    turns_between(own, turn) > 0 && is_later(other, own)
}

/// The mark of the step before a step on the path.
pub(crate) fn mark_before(trails: &[Trail], step: &Step) -> usize
    requires { length trails.now ≡ 1296 }
    // by any turns that are those of the trails
    ensures value { (last_turns : ℕ → Option ℕ)
        → ((mark : ℕ) → mark < 1296 → (get_or trails.now mark NO_TRAIL).last ≡ last_turns mark)
        → result ≡ spec.mark_before last_turns step.now }
    ensures bound { result < 1296 }
{
    let own = step_mark(step.node);
    match awaited_mark(step.node, &step.deed) {
        Some(other) => mark_by(trails, step.turn, own, other),
        None => own,
    }
}

/// The mark of another node's step if a step did wait for that one, or else of its own node's.
fn mark_by(trails: &[Trail], turn: u64, own: usize, other: usize) -> usize
    requires trails { length trails.now ≡ 1296 }
    requires own { own < 1296 }
    requires other { other < 1296 }
    ensures value { result ≡ spec.mark_by (λ mark. (get_or trails.now mark NO_TRAIL).last)
        turn own (Some other) }
    ensures bound { result < 1296 }
{
    let is_behind_wait = has_waited(turn, trails[own].last, trails[other].last);
    if is_behind_wait { other } else { own }
}
