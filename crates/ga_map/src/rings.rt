//! The nodes of rings, and where they are.
ghost use Rattle.std.specs.Prelude.{◌≡◌, ◌++◌, OnOk, string_bytes};
ghost use Rattle.ga_waits.specs.Label.{images_in};
ghost use Rattle.ga_map.specs.Rings as spec;
ghost use Rattle.ga_map.specs.Rings.{ring_node, ring_nodes};

use crate::position::push_position;
use ga_asm::Images;
use ga_chip::Chip;
use ga_place::Node;
use ga_waits::next_of;
use std::alloc::AllocError;

/// Adds a line for each node of a ring, in order of name.
pub(crate) fn push_ring_nodes(
    text: &mut String,
    chip: &Chip,
    images: Option<&Images>,
) -> Result<(), AllocError>
    ensures { OnOk result (string_bytes text.new ≡ string_bytes text.old
        ++ ring_nodes (images_in images.entry) chip.now) }
{
    for index in 0..144 {
        push_ring_node(text, chip, images, Node::at(index))?;
    }
    Ok(())
}

/// Adds the line of a node, if it is in a ring.
fn push_ring_node(
    text: &mut String,
    chip: &Chip,
    images: Option<&Images>,
    node: Node,
) -> Result<(), AllocError>
    ensures { OnOk result (string_bytes text.new ≡ string_bytes text.old
        ++ ring_node (images_in images.entry) chip.now node) }
{
    if !in_ring(chip, node) {
        return Ok(());
    }
    text.push_str("  ")?;
    push_position(text, chip, images, node)?;
    text.push_str("\n")
}

/// Whether from a node on each node waits for the next, and one of them for this node.
pub(crate) fn in_ring(chip: &Chip, node: Node) -> bool
    ensures { result ≡ spec.in_ring chip.now node }
{
    let mut next = next_of(chip, node);
    for _walked in 0..144_u8 {
        let Some(other) = next else {
            return false;
        };
        if other == node {
            return true;
        }
        next = next_of(chip, other);
    }
    false
}
