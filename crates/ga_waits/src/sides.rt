//! The sides at which a node waits, and what its neighbours there do.
ghost use Rattle.std.specs.Prelude.{◌≡◌, ◌++◌, [], OnOk, codes, string_bytes};
ghost use Rattle.ga_place.specs.Side.{SIDES};
ghost use Rattle.ga_chip.specs.Chip.{state_of};
ghost use Rattle.ga_chip.specs.Run.{stands_held};
ghost use Rattle.ga_waits.specs.Sides.{act_text, doing_text, end_text, joined, rest_text, told_end, told_need, wait_text};

use ga_chip::Chip;
use ga_dump::side_name;
use ga_node::Need;
use ga_place::{Node, SIDES, Side, Sides, neighbour};
use std::alloc::AllocError;
use std::fmt::Write;

/// Adds what a node needs behind a space; for a take, a post or a check also its sides, and what
/// the neighbours there do.
pub fn push_need(text: &mut String, chip: &Chip, node: Node, need: Need) -> Result<(), AllocError>
    ensures { OnOk result (string_bytes text.new
        ≡ string_bytes text.old ++ told_need chip.now node need) }
{
    match need {
        Need::Take(sides) => {
            text.push_str(" take ")?;
            push_told_ends(text, chip, node, sides)
        }
        Need::Post(side, _) => {
            text.push_str(" post ")?;
            push_told_end(text, chip, node, side)
        }
        Need::Check(side) => {
            text.push_str(" check ")?;
            push_told_end(text, chip, node, side)
        }
        other => {
            write!(text, " {other}")?;
            Ok(())
        }
    }
}

/// Adds sides with what the neighbours there do, in the order right, down, left, up.
fn push_told_ends(
    text: &mut String,
    chip: &Chip,
    node: Node,
    sides: Sides,
) -> Result<(), AllocError>
    ensures { OnOk result (string_bytes text.new ≡ string_bytes text.old
        ++ joined (told_end chip.now node) [] (codes " and ") sides SIDES) }
{
    let mut between = "";
    for side in SIDES {
        if sides.has(side) {
            text.push_str(between)?;
            push_told_end(text, chip, node, side)?;
            between = " and ";
        }
    }
    Ok(())
}

/// Adds a side, the neighbour there, and what that one does.
fn push_told_end(text: &mut String, chip: &Chip, node: Node, side: Side) -> Result<(), AllocError>
    ensures { OnOk result (string_bytes text.new
        ≡ string_bytes text.old ++ told_end chip.now node side) }
{
    match neighbour(node, side) {
        Some(other) => {
            write!(text, "{} of {other} which ", side_name(side))?;
            push_doing(text, chip, other)
        }
        None => {
            write!(text, "{} of nobody", side_name(side))?;
            Ok(())
        }
    }
}

/// Adds what a node does: that it is held, or what it needs and from whom, as `takes right of 709`.
/// (The text is this project's own: profile.)
pub fn push_doing(text: &mut String, chip: &Chip, node: Node) -> Result<(), AllocError>
    ensures { OnOk result (string_bytes text.new ≡ string_bytes text.old
        ++ doing_text (stands_held chip.now node) node (state_of chip.now node)) }
{
    if chip.is_held(node) {
        text.push_str("is held")?;
        return Ok(());
    }
    push_act(text, node, chip.state(node).need())
}

/// Adds what a node does that isn't held.
fn push_act(text: &mut String, node: Node, need: Need) -> Result<(), AllocError>
    ensures { OnOk result (string_bytes text.new ≡ string_bytes text.old ++ act_text node need) }
{
    match need {
        Need::Own => text.push_str("works")?,
        Need::Take(sides) => {
            text.push_str("takes ")?;
            push_ends(text, node, sides)?;
        }
        Need::Post(side, _) => {
            text.push_str("posts ")?;
            push_end(text, node, side)?;
        }
        Need::Check(side) => {
            text.push_str("checks ")?;
            push_end(text, node, side)?;
        }
        Need::Input => text.push_str("awaits its stream")?,
        Need::Stopped(_) => text.push_str("is stopped")?,
    }
    Ok(())
}

/// Adds sides with the neighbours there, in the order right, down, left, up.
fn push_ends(text: &mut String, node: Node, sides: Sides) -> Result<(), AllocError>
    ensures { OnOk result (string_bytes text.new ≡ string_bytes text.old
        ++ joined (end_text node) [] (codes "/") sides SIDES) }
{
    let mut between = "";
    for side in SIDES {
        if sides.has(side) {
            text.push_str(between)?;
            push_end(text, node, side)?;
            between = "/";
        }
    }
    Ok(())
}

/// Adds a side and the neighbour there.
fn push_end(text: &mut String, node: Node, side: Side) -> Result<(), AllocError>
    ensures { OnOk result (string_bytes text.new ≡ string_bytes text.old ++ end_text node side) }
{
    match neighbour(node, side) {
        Some(other) => write!(text, "{} of {other}", side_name(side))?,
        None => write!(text, "{} of nobody", side_name(side))?,
    }
    Ok(())
}

/// Adds why a node makes no step: that it is held, at which sides it waits, or why it has stopped.
/// (The text is this project's own: profile.)
pub fn push_rest(text: &mut String, chip: &Chip, node: Node) -> Result<(), AllocError>
    ensures { OnOk result (string_bytes text.new ≡ string_bytes text.old
        ++ rest_text (stands_held chip.now node) node (state_of chip.now node)) }
{
    if chip.is_held(node) {
        text.push_str("held")?;
        return Ok(());
    }
    push_wait(text, node, chip.state(node).need())
}

/// Adds why a node that isn't held makes no step, by its need.
fn push_wait(text: &mut String, node: Node, need: Need) -> Result<(), AllocError>
    ensures { OnOk result (string_bytes text.new ≡ string_bytes text.old ++ wait_text node need) }
{
    match need {
        Need::Own => text.push_str("works")?,
        Need::Take(sides) => {
            text.push_str("waits ")?;
            push_ends(text, node, sides)?;
        }
        Need::Post(side, _) | Need::Check(side) => {
            text.push_str("waits ")?;
            push_end(text, node, side)?;
        }
        Need::Input => text.push_str("waits for its stream")?,
        Need::Stopped(_) => write!(text, "{need}")?,
    }
    Ok(())
}
