//! Rings of nodes, each of which waits for the next.
ghost use Rattle.std.specs.Prelude.{◌≡◌, ◌++◌, OnOk, None, if◌then◌else◌, length, map, string_bytes};
ghost use Rattle.ga_place.specs.Cell.{read_cell};
ghost use Rattle.ga_place.specs.Side.{neighbour_of};
ghost use Rattle.ga_chip.specs.Stuck as chip_spec;
ghost use Rattle.ga_waits.specs.inner.Next as inner;
ghost use Rattle.ga_waits.specs.Ring as spec;
ghost use Rattle.ga_waits.specs.Ring.{awaits, ring_at, ring_line, row_behind};
ghost use Rattle.ga_waits.specs.Waits.{text_of};

use ga_chip::Chip;
use ga_node::Need;
use ga_place::{CellId, Node, Side, cell, neighbour};
use std::alloc::AllocError;
use std::fmt::Write;

/// The node for which each node waits, in order of name, so that it is computed once.
pub fn next_nodes(chip: &Chip) -> [Option<Node>; 144]
    ensures { inner.next_in result ≡ spec.next_of chip.now }
{
    chip.legal();
    let mut nexts = [None; 144];
    for index in 0..144 {
        nexts[index] = next_of(chip, Node::at(index));
    }
    nexts
}

/// Adds the line of the ring that begins at a node, if one does.
#[tactic(auto, unfolding(crate::specs::Ring::ring_line))]
pub fn push_ring(text: &mut String, nexts: &[Option<Node>], first: Node) -> Result<(), AllocError>
    // an entry for each node
    requires { length nexts.now ≡ 144 }
    ensures { OnOk result (string_bytes text.new
        ≡ string_bytes text.old
        ++ text_of (map ring_line (ring_at (inner.next_in nexts.now) first))) }
{
    if !begins_ring(nexts, first) {
        return Ok(());
    }
    write!(text, "ring {first}")?;
    push_names(text, nexts, first)?;
    text.push_str("\n")?;
    Ok(())
}

/// Whether from this node on each node waits for the next, and the last for this node, which has
/// the least name of them.
fn begins_ring(nexts: &[Option<Node>], first: Node) -> bool
    requires { length nexts.now ≡ 144 }
    ensures { result ≡ spec.begins_ring (inner.next_in nexts.now) first }
{
    let mut next = next_in(nexts, first);
    for _walked in 0..144_u8 {
        let Some(node) = next else {
            return false;
        };
        if node == first {
            return true;
        }
        if node < first {
            return false;
        }
        next = next_in(nexts, node);
    }
    false
}

/// Adds the names of a ring behind the first, each behind a space.
fn push_names(text: &mut String, nexts: &[Option<Node>], first: Node) -> Result<(), AllocError>
    requires { length nexts.now ≡ 144 }
    ensures { OnOk result (string_bytes text.new
        ≡ string_bytes text.old ++ inner.names_text (row_behind (inner.next_in nexts.now) first)) }
{
    let mut next = next_in(nexts, first);
    for _walked in 0..144_u8 {
        let Some(node) = next else {
            return Ok(());
        };
        if node == first {
            return Ok(());
        }
        write!(text, " {node}")?;
        next = next_in(nexts, node);
    }
    Ok(())
}

/// The node for which a node waits, by the list of these.
fn next_in(nexts: &[Option<Node>], node: Node) -> Option<Node>
    requires { length nexts.now ≡ 144 }
    ensures { result ≡ inner.next_in nexts.now node }
{
    nexts[node.index()]
}

/// The node for which a node waits, if it waits for only one: at a take of one side, until a word
/// is pending there, and at a check, until its word is read. A held node waits for nobody.
#[tactic(auto, unfolding(crate::specs::Ring::next_of))]
pub fn next_of(chip: &Chip, node: Node) -> Option<Node>
    ensures { result ≡ spec.next_of chip.now node }
{
    if chip.is_held(node) {
        return None;
    }
    awaited(chip, node, chip.state(node).need())
}

/// The node for which a node waits that isn't held, by its need.
fn awaited(chip: &Chip, node: Node, need: Need) -> Option<Node>
    ensures { result ≡ awaits chip.now.cells node need }
{
    match need {
        Need::Take(sides) => match sides.only() {
            Some(side) => awaited_writer(chip, node, side),
            None => None,
        },
        Need::Check(side) => awaited_reader(chip, node, side),
        _ => None,
    }
}

/// The neighbour at a side, if no word of it is pending.
fn awaited_writer(chip: &Chip, node: Node, side: Side) -> Option<Node>
    ensures { result ≡ (if chip_spec.is_full chip.now.cells (read_cell node side) then None
        else neighbour_of node side) }
{
    let other = neighbour(node, side)?;
    if is_full(chip, cell(other, side)) {
        None
    } else {
        Some(other)
    }
}

/// The neighbour at a side, if a word for it is pending.
fn awaited_reader(chip: &Chip, node: Node, side: Side) -> Option<Node>
    ensures { result ≡ awaits chip.now.cells node (Need.Check side) }
{
    if is_full(chip, cell(node, side)) {
        neighbour(node, side)
    } else {
        None
    }
}

/// Whether a word is pending in a cell, if there is one.
fn is_full(chip: &Chip, at: Option<CellId>) -> bool
    ensures { result ≡ chip_spec.is_full chip.now.cells at }
{
    match at {
        Some(at) => chip.cells().pending(at).is_some(),
        None => false,
    }
}
