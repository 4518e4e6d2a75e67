ghost use Rattle.std.specs.Prelude.{◌≡◌, ◌↔◌, ℕ, ◌++◌, Contains, IfOk, List, OnOk, map, slice_index, string_bytes};
ghost use Rattle.std.specs.List.Sorted.{IsStrictlyIncreasing};
ghost use Rattle.ga_chip.specs.Stuck.{HoldsEachClosed, IsClosed, has_node};
ghost use Rattle.ga_waits.specs.Closed.{stuck_in};
ghost use Rattle.ga_waits.specs.Label.{images_in};
ghost use Rattle.ga_waits.specs.Ring.{IsRing, next_of, rings_of};
ghost use Rattle.ga_waits.specs.Waits.{all_node_lines, all_ring_lines, text_of, waits_text};

use crate::line::push_line;
use crate::ring::{next_nodes, push_ring};
use ga_asm::Images;
use ga_chip::{Chip, StuckNodes};
use ga_place::Node;
use std::alloc::{AllocError, Global};

/// Who waits for whom, as text: a line for each node that has started, in order of name, and behind
/// these a line for each ring of nodes in which each waits for the next at one side, in the order
/// of the least name of each.
///
/// The line of a node has its place, with the label of its image that is at P or the last before
/// it, if there are images; what it needs, and from whom; and what that neighbour does. It ends
/// with `held` if the node's tries are held, and with `stuck` if the node is in the largest closed
/// set, which no tries in any order move. The call allocates only its text, and fails only when out
/// of memory. (The text is this project's own: profile.)
#[tactic(auto, unfolding(crate::specs::Waits::waits_text), using(crate::proofs::Largest::closed))]
pub fn waits(alloc: Global, chip: &Chip, images: Option<&Images>) -> Result<String, AllocError>
    ensures text { IfOk result (λ text. string_bytes text
        ≡ waits_text (images_in images.entry) chip.now) }
    // the nodes with `stuck` are the largest closed set
    ensures closed { IsClosed chip.now (stuck_in chip.now) }
    ensures largest { HoldsEachClosed chip.now (stuck_in chip.now) }
    // each ring has a line, and nothing else has,
    ensures rings { (row : List ℕ)
        → Contains (rings_of (next_of chip.now)) row ↔ IsRing (next_of chip.now) row }
    // in the order of their least names
    ensures ring_order { IsStrictlyIncreasing
        (map (λ row. slice_index row 0) (rings_of (next_of chip.now))) }
{
    let mut text = String::new(alloc);
    chip.legal();
    push_nodes(&mut text, chip, images, &chip.stuck())?;
    push_rings(&mut text, chip)?;
    Ok(text)
}

/// Adds the lines of all nodes that have started.
fn push_nodes(
    text: &mut String,
    chip: &Chip,
    images: Option<&Images>,
    stuck: &StuckNodes,
) -> Result<(), AllocError>
    requires stuck { (name : ℕ) → has_node stuck.now name ≡ stuck_in chip.now name }
    ensures { OnOk result (string_bytes text.new
        ≡ string_bytes text.old ++ text_of (all_node_lines (images_in images.entry) chip.now)) }
{
    for index in 0..144 {
        let node = Node::at(index);
        push_line(text, chip, images, stuck.contains(node), node)?;
    }
    Ok(())
}

/// Adds a line for each ring, as [`waits`] shows it.
pub fn push_rings(text: &mut String, chip: &Chip) -> Result<(), AllocError>
    ensures { OnOk result (string_bytes text.new
        ≡ string_bytes text.old ++ text_of (all_ring_lines chip.now)) }
{
    let nexts = next_nodes(chip);
    for index in 0..144 {
        push_ring(text, &nexts, Node::at(index))?;
    }
    Ok(())
}
