//! How long a run would be if a node were twice as fast.
ghost use Rattle.std.specs.Prelude.{◌≡◌, IfOk, length};
ghost use Rattle.ga_profile.specs.Faster as spec;

use crate::node_turns::NodeTurns;
use crate::window::Window;
use ga_chip::{Chip, Try, side_of_turn};
use ga_node::Need;
use ga_place::Node;
use std::alloc::{AllocError, Global};

/// How many turns a window of the run of a chip would have if a node made its own steps two a turn
/// in it, so that each node has made the steps of its goal by then. `None` unless they are fewer
/// than it has.
pub(crate) fn shorter_window(
    alloc: Global,
    chip: &Chip,
    window: Window,
    node: Node,
    goals: &[u64],
) -> Result<Option<u32>, AllocError>
    requires { length goals.now ≡ 144 }
    ensures { IfOk result (λ turns. turns ≡ spec.shorter_window window node goals.now chip.now) }
{
    if window.first >= u64::from(window.end) {
        return Ok(None);
    }
    let first = window.first as u32;
    let mut copy = chip.copied(alloc)?;
    let _moved = copy.turns(first);
    let most = window.end - first - 1;
    Ok(turns_if_faster(&mut copy, node, first, most, goals))
}

/// In how many turns, at most `most`, a faster node leads to where each node has done its work.
fn turns_if_faster(chip: &mut Chip, node: Node, first: u32, most: u32, goals: &[u64]) -> Option<u32>
    requires { length goals.now ≡ 144 }
    ensures { result ≡ spec.turns_if_faster most 0 first node goals.now chip.old }
{
    for made in 0..most {
        if have_done(chip, goals) {
            return Some(made);
        }
        make_turn(chip, node, u64::from(first) + u64::from(made));
    }
    if have_done(chip, goals) {
        Some(most)
    } else {
        None
    }
}

/// Makes the turn of a number, in which a node is twice as fast.
fn make_turn(chip: &mut Chip, node: Node, number: u64)
    ensures { chip.new ≡ spec.faster_turned node number chip.old }
{
    let side = side_of_turn(number);
    let works = works_alone(chip, node);
    let _moved = chip.turn(side);
    if works && works_alone(chip, node) {
        let _also = chip.attempt_step(Try { node, side });
    }
}

/// Whether the next step of a node is its own.
fn works_alone(chip: &Chip, node: Node) -> bool
    ensures { result ≡ spec.works_alone chip.now node }
{
    match chip.state(node).need() {
        Need::Own => true,
        _ => false,
    }
}

/// Whether each node has done its work.
fn have_done(chip: &Chip, goals: &[u64]) -> bool
    requires { length goals.now ≡ 144 }
    ensures { result ≡ spec.have_done goals.now chip.now }
{
    for index in 0..144 {
        if !has_done(chip, Node::at(index), goals[index]) {
            return false;
        }
    }
    true
}

/// Whether a node has done its work.
fn has_done(chip: &Chip, node: Node, goal: u64) -> bool
    ensures { result ≡ spec.has_done goal chip.now node }
{
    chip.state(node).steps() >= goal
}

/// How many steps each node has to make, by the chip at the end of a run and by what it did in all
/// turns.
pub(crate) fn goals_of(
    alloc: Global,
    chip: &Chip,
    nodes: &[NodeTurns],
) -> Result<Vec<u64>, AllocError>
    requires { length nodes.now ≡ 144 }
    ensures goals { IfOk result (λ goals. goals.items ≡ spec.goals_of chip.now nodes.now) }
    ensures all { IfOk result (λ goals. length goals.items ≡ 144) }
{
    let mut goals = Vec::new(alloc);
    for index in 0..144 {
        goals.push(goal_of(chip, Node::at(index), &nodes[index]))?;
    }
    Ok(goals)
}

/// How many steps a node has to make: those of the run, but for its spins.
fn goal_of(chip: &Chip, node: Node, turns: &NodeTurns) -> u64
    ensures { result ≡ spec.goal_of chip.now node turns.now }
{
    chip.state(node).steps().saturating_sub(turns.counts.spins)
}
