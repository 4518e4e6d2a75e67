//! The words that are pending, and who can read them.
ghost use Rattle.std.specs.Prelude.{◌≡◌, ◌++◌, OnOk, string_bytes};
ghost use Rattle.ga_waits.specs.Label.{images_in};
ghost use Rattle.ga_map.specs.Pending.{all_pending, node_pending, pending_line, side_pending};

use crate::position::push_position;
use crate::posted::posted;
use ga_asm::Images;
use ga_chip::Chip;
use ga_place::{Node, SIDES, Side, neighbour};
use ga_word::Word18;
use std::alloc::AllocError;
use std::fmt::Write;

/// Adds a line for each word that is pending, in order of its writer.
pub(crate) fn push_pending(
    text: &mut String,
    chip: &Chip,
    images: Option<&Images>,
) -> Result<(), AllocError>
    ensures { OnOk result (string_bytes text.new ≡ string_bytes text.old
        ++ all_pending (images_in images.entry) chip.now) }
{
    for index in 0..144 {
        push_node_pending(text, chip, images, Node::at(index))?;
    }
    Ok(())
}

/// Adds the lines of the words that a node posted, in the order right, down, left, up.
#[tactic(auto, unfolding(crate::specs::Pending::node_pending))]
fn push_node_pending(
    text: &mut String,
    chip: &Chip,
    images: Option<&Images>,
    node: Node,
) -> Result<(), AllocError>
    ensures { OnOk result (string_bytes text.new ≡ string_bytes text.old
        ++ node_pending (images_in images.entry) chip.now node) }
{
    for side in SIDES {
        push_side_pending(text, chip, images, node, side)?;
    }
    Ok(())
}

/// Adds the line of the word that a node posted at a side, if it isn't read.
fn push_side_pending(
    text: &mut String,
    chip: &Chip,
    images: Option<&Images>,
    node: Node,
    side: Side,
) -> Result<(), AllocError>
    ensures { OnOk result (string_bytes text.new ≡ string_bytes text.old
        ++ side_pending (images_in images.entry) chip.now node side) }
{
    match (posted(chip, node, side), neighbour(node, side)) {
        (Some(word), Some(reader)) => push_line(text, chip, images, node, word, reader),
        _ => Ok(()),
    }
}

/// Adds the line of a word of a node, and its reader.
#[tactic(auto, unfolding(crate::specs::Pending::pending_line))]
fn push_line(
    text: &mut String,
    chip: &Chip,
    images: Option<&Images>,
    node: Node,
    word: Word18,
    reader: Node,
) -> Result<(), AllocError>
    ensures { OnOk result (string_bytes text.new ≡ string_bytes text.old
        ++ pending_line (images_in images.entry) chip.now node word reader) }
{
    write!(text, "pending {node} to {reader}")?;
    write!(text, " {word}  ")?;
    push_position(text, chip, images, reader)?;
    text.push_str("\n")?;
    Ok(())
}
