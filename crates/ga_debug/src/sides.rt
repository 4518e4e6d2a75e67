//! The neighbours of a node, and what lies at its ports.
ghost use Rattle.std.specs.Prelude.{◌≡◌, ◌++◌, IfOk, OnOk, string_bytes};
ghost use Rattle.ga_debug.specs.Sides.{compass, end_text, posted_text, side_line, side_lines, sides_text};

use ga_chip::Chip;
use ga_dump::side_name;
use ga_place::{Node, SIDES, Side, neighbour};
use ga_trace::{What, value_of};
use std::alloc::{AllocError, Global};
use std::fmt::Write;

/// For each side of a node at which it has a neighbour: the neighbour, where it lies, and the word
/// that each of the two has posted there.
#[tactic(auto, unfolding(crate::specs::Sides::sides_text))]
pub(crate) fn sides_text(alloc: Global, chip: &Chip, node: Node) -> Result<String, AllocError>
    ensures { IfOk result (λ text. string_bytes text ≡ sides_text chip.now node) }
{
    let mut text = String::new(alloc);
    for side in SIDES {
        push_side(&mut text, chip, node, side)?;
    }
    Ok(text)
}

/// Adds the line of a side, if the node has a neighbour there.
fn push_side(text: &mut String, chip: &Chip, node: Node, side: Side) -> Result<(), AllocError>
    ensures { OnOk result (string_bytes text.new
        ≡ string_bytes text.old ++ side_lines chip.now node side) }
{
    match neighbour(node, side) {
        Some(other) => push_line(text, chip, node, side, other),
        None => Ok(()),
    }
}

/// Adds the line of a side.
fn push_line(
    text: &mut String,
    chip: &Chip,
    node: Node,
    side: Side,
    other: Node,
) -> Result<(), AllocError>
    ensures { OnOk result (string_bytes text.new
        ≡ string_bytes text.old ++ side_line chip.now node side other) }
{
    push_end(text, node, side, other)?;
    push_posted(text, chip, node, side)?;
    push_posted(text, chip, other, side)?;
    text.push_str("\n")?;
    Ok(())
}

/// Adds a side and the neighbour there.
fn push_end(text: &mut String, node: Node, side: Side, other: Node) -> Result<(), AllocError>
    ensures { OnOk result (string_bytes text.new
        ≡ string_bytes text.old ++ end_text node side other) }
{
    write!(text, "{} {other} {}", side_name(side), compass(node, other))?;
    Ok(())
}

/// Adds the word that a node has posted at a side.
fn push_posted(text: &mut String, chip: &Chip, node: Node, side: Side) -> Result<(), AllocError>
    ensures { OnOk result (string_bytes text.new
        ≡ string_bytes text.old ++ posted_text chip.now node side) }
{
    let value = value_of(chip, node, What::Pending(side));
    write!(text, "  from {node} {value}")?;
    Ok(())
}

/// Where a neighbour lies.
fn compass(node: Node, other: Node) -> &'static str
    ensures { result.now ≡ compass node other }
{
    let (name, other) = (node.name(), other.name());
    if other == name + 1 {
        "east"
    } else if other == name + 100 {
        "north"
    } else if name == other + 1 {
        "west"
    } else {
        "south"
    }
}
