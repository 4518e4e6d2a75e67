//! Words that no node will ever read.
ghost use Rattle.std.specs.Prelude.{◌≡◌, ◌++◌, ℕ, IfOk, OnOk, string_bytes};
ghost use Rattle.ga_chip.specs.Stuck as chip_spec;
ghost use Rattle.ga_chip.specs.Stuck.{has_node};
ghost use Rattle.ga_waits.specs.Closed.{stuck_in};
ghost use Rattle.ga_profile.specs.Unread as spec;
ghost use Rattle.ga_profile.specs.Unread.{never_reads, stuck_text, unread_nodes, unread_text};

use ga_chip::{Chip, StuckNodes};
use ga_node::Need;
use ga_place::{CellId, Node, Side, cell, neighbour};
use ga_trace::spins;
use std::alloc::{AllocError, Global};
use std::fmt::Write;

/// The nodes of a chip that wait for good for their words to be read, in order of name: each node
/// that could read one of these words is stuck or spins. Fails only when out of memory.
pub fn unread_nodes(alloc: Global, chip: &Chip) -> Result<Vec<Node>, AllocError>
    ensures { IfOk result (λ nodes. nodes.items ≡ unread_nodes chip.now) }
{
    chip.legal();
    unread_by(alloc, chip, &chip.stuck())
}

/// These nodes, by the stuck ones.
#[tactic(auto, unfolding(crate::specs::Unread::unread_nodes))]
fn unread_by(alloc: Global, chip: &Chip, stuck: &StuckNodes) -> Result<Vec<Node>, AllocError>
    requires stuck { (name : ℕ) → has_node stuck.now name ≡ stuck_in chip.now name }
    ensures { IfOk result (λ nodes. nodes.items ≡ unread_nodes chip.now) }
{
    let mut nodes = Vec::new(alloc);
    for index in 0..144 {
        push_unread_node(&mut nodes, chip, stuck, Node::at(index))?;
    }
    Ok(nodes)
}

/// Adds a node, if it waits for good for its word to be read.
fn push_unread_node(
    nodes: &mut Vec<Node>,
    chip: &Chip,
    stuck: &StuckNodes,
    node: Node,
) -> Result<(), AllocError>
    requires stuck { (name : ℕ) → has_node stuck.now name ≡ stuck_in chip.now name }
    ensures { OnOk result (nodes.new.items ≡ nodes.old.items ++ spec.if_unread chip.now node) }
{
    if has_unread(chip, stuck, node) {
        nodes.push(node)?;
    }
    Ok(())
}

/// Whether a node waits for good for its word to be read.
fn has_unread(chip: &Chip, stuck: &StuckNodes, node: Node) -> bool
    requires stuck { (name : ℕ) → has_node stuck.now name ≡ stuck_in chip.now name }
    ensures { result ≡ spec.has_unread chip.now node }
{
    !chip.is_held(node) && waits_unread(chip, stuck, node, chip.state(node).need())
}

/// The same by its need, if it isn't held.
fn waits_unread(chip: &Chip, stuck: &StuckNodes, node: Node, need: Need) -> bool
    requires stuck { (name : ℕ) → has_node stuck.now name ≡ stuck_in chip.now name }
    ensures { result ≡ spec.waits_unread (never_reads chip.now) chip.now.cells node need }
{
    match need {
        Need::Post(side, _) => neighbour(node, side).is_none(),
        Need::Check(side) => is_unread(chip, stuck, node, side),
        _ => false,
    }
}

/// Whether the word that a node posted at a side is never read.
fn is_unread(chip: &Chip, stuck: &StuckNodes, node: Node, side: Side) -> bool
    requires stuck { (name : ℕ) → has_node stuck.now name ≡ stuck_in chip.now name }
    ensures { result ≡ chip_spec.is_unread (never_reads chip.now) chip.now.cells node side }
{
    match neighbour(node, side) {
        Some(reader) => { is_full(chip, cell(node, side)) && never_reads(chip, stuck, reader) }
        None => true,
    }
}

/// Whether a word is pending in a cell, if there is one.
fn is_full(chip: &Chip, at: Option<CellId>) -> bool
    ensures { result ≡ chip_spec.is_full chip.now.cells at }
{
    match at {
        Some(at) => chip.cells().pending(at).is_some(),
        None => false,
    }
}

fn never_reads(chip: &Chip, stuck: &StuckNodes, node: Node) -> bool
    requires stuck { (name : ℕ) → has_node stuck.now name ≡ stuck_in chip.now name }
    ensures { result ≡ never_reads chip.now node }
{
    stuck.contains(node) || spins(chip, node)
}

/// Adds the line of the nodes that wait for good for their words to be read, if there are any.
pub(crate) fn push_unread(text: &mut String, alloc: Global, chip: &Chip) -> Result<(), AllocError>
    ensures { OnOk result (string_bytes text.new
        ≡ string_bytes text.old ++ unread_text (spec.unread_nodes chip.now)) }
{
    let nodes = unread_nodes(alloc, chip)?;
    push_line(text, nodes.as_slice())
}

/// Adds a line of these nodes, if there are any.
fn push_line(text: &mut String, nodes: &[Node]) -> Result<(), AllocError>
    ensures { OnOk result (string_bytes text.new
        ≡ string_bytes text.old ++ unread_text nodes.now) }
{
    if nodes.is_empty() {
        return Ok(());
    }
    push_stuck(text, nodes)
}

/// Adds a line of these nodes.
#[tactic(auto, unfolding(crate::specs::Unread::stuck_text))]
fn push_stuck(text: &mut String, nodes: &[Node]) -> Result<(), AllocError>
    ensures { OnOk result (string_bytes text.new ≡ string_bytes text.old ++ stuck_text nodes.now) }
{
    text.push_str("Stuck, since no node reads its word:")?;
    push_names(text, nodes)?;
    text.push_str(".\n")
}

/// Adds the names of nodes, each behind a blank.
fn push_names(text: &mut String, nodes: &[Node]) -> Result<(), AllocError>
    ensures { OnOk result (string_bytes text.new
        ≡ string_bytes text.old ++ spec.names_text nodes.now) }
{
    for node in nodes {
        write!(text, " {node}")?;
    }
    Ok(())
}
