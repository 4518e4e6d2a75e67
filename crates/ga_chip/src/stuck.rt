//! Nodes that nothing can move any more.
ghost use Rattle.std.specs.Prelude.{◌≡◌, ◌<◌, false, length, true};
ghost use Rattle.std.specs.List.{count_by};
ghost use Rattle.ga_chip.specs.Legal.{IsLegal};
ghost use Rattle.ga_chip.specs.Stuck.{HoldsEachClosed, IsClosed, has_node, is_dry, is_dry_at, is_stuck, is_unread};

use crate::part::NodePart;
use crate::row::CellRow;
use ga_node::Need;
use ga_place::{Node, SIDES, Side, Sides};
use std::marker::Model;

/// Nodes of a chip that nothing can move any more. A contract sees them as a list: for each node,
/// in order of name, whether it is one of them.
#[derive(Clone, Copy)]
pub struct StuckNodes {
    by_index: [bool; 144],
}

impl Model for StuckNodes {
    ghost use Rattle.std.specs.Prelude.{◌≡◌, Bool, List, length};

    ghost Value = { List Bool };

    ghost view = { λ nodes. nodes.by_index };

    ghost invariant = { λ nodes. length nodes.by_index ≡ 144 };

    ghost inverse = { λ nodes. record { by_index = nodes } };
}

impl StuckNodes {
    /// Whether a node is one of them.
    pub fn contains(&self, node: Node) -> bool
        ensures { result ≡ has_node self.now node }
    {
        self.by_index[node.index()]
    }

    /// How many they are.
    pub fn count(&self) -> usize
        ensures { result ≡ count_by (λ stuck. stuck) self.now }
    {
        self.by_index.iter().filter(|stuck| **stuck).count()
    }
}

/// The largest closed set of nodes, by the chip's parts and cells.
pub(crate) fn stuck_nodes(parts: &[NodePart], cells: &CellRow) -> StuckNodes
    requires { IsLegal (record { parts = parts.now; cells = cells.now }) }
    ensures closed { IsClosed (record { parts = parts.now; cells = cells.now }) (has_node result) }
    ensures largest { HoldsEachClosed (record { parts = parts.now; cells = cells.now })
        (has_node result) }
{
    let mut by_index = [true; 144];
    while leave_out(&mut by_index, parts, cells) {}
    StuckNodes { by_index }
}

/// Leaves out of a set the nodes that could go on while those that are left in it don't. Answers
/// whether there was one.
fn leave_out(inside: &mut [bool], parts: &[NodePart], cells: &CellRow) -> bool
    requires set { length inside.old ≡ 144 }
    requires legal { IsLegal (record { parts = parts.now; cells = cells.now }) }
    ensures closed { result ≡ false
        → IsClosed (record { parts = parts.now; cells = cells.now }) (has_node inside.new) }
    ensures holds { HoldsEachClosed (record { parts = parts.now; cells = cells.now })
        (has_node inside.old)
        → HoldsEachClosed (record { parts = parts.now; cells = cells.now }) (has_node inside.new) }
    ensures fewer { result ≡ true
        → count_by (λ one. one) inside.new < count_by (λ one. one) inside.old }
{
    let mut fewer = false;
    for index in 0..144 {
        if inside[index] && !is_stuck(&parts[index], cells, inside) {
            inside[index] = false;
            fewer = true;
        }
    }
    fewer
}

/// Whether a node can't go on as long as no node of a set does.
#[tactic(auto, unfolding(crate::specs::Stuck::is_stuck))]
fn is_stuck(part: &NodePart, cells: &CellRow, inside: &[bool]) -> bool
    requires { length inside.now ≡ 144 }
    ensures { result ≡ is_stuck (has_node inside.now) cells.now part.now }
{
    match part.state().need() {
        Need::Own => false,
        Need::Take(sides) => is_dry_at(part, cells, inside, sides),
        Need::Post(to, _) => part.port(to).is_none(),
        Need::Check(to) => is_unread(part, cells, inside, to),
        Need::Input => part.stream_left() == 0,
        Need::Stopped(_) => true,
    }
}

/// Whether no word can come to a node at any of some sides.
fn is_dry_at(part: &NodePart, cells: &CellRow, inside: &[bool], sides: Sides) -> bool
    requires { length inside.now ≡ 144 }
    ensures { result ≡ is_dry_at (has_node inside.now) cells.now part.now.state.node sides }
{
    SIDES.iter().all(|side| !sides.has(*side) || is_dry(part, cells, inside, *side))
}

/// Whether no word can come to a node at a side.
fn is_dry(part: &NodePart, cells: &CellRow, inside: &[bool], side: Side) -> bool
    requires { length inside.now ≡ 144 }
    ensures { result ≡ is_dry (has_node inside.now) cells.now part.now.state.node side }
{
    match part.port(side) {
        Some(port) => cells.pending(port.reads).is_none() && inside[usize::from(port.neighbour)],
        None => true,
    }
}

/// Whether the word that a node posted at a side can't be read.
fn is_unread(part: &NodePart, cells: &CellRow, inside: &[bool], side: Side) -> bool
    requires { length inside.now ≡ 144 }
    ensures { result ≡ is_unread (has_node inside.now) cells.now part.now.state.node side }
{
    match part.port(side) {
        Some(port) => cells.pending(port.writes).is_some() && inside[usize::from(port.neighbour)],
        None => true,
    }
}
