//! Turns until a value of a node changes.
ghost use Rattle.std.specs.Prelude.{◌≡◌, ◌==◌, ◌++◌, IfOk, OnOk, string_bytes};
ghost use Rattle.ga_place.specs.Side.{side_bit};
ghost use Rattle.ga_waits.specs.Label.{images_in};
ghost use Rattle.ga_trace.specs.Watched.{change_line, changes_to, no_change_line, posted_at, value_in_turn, watched, watched_from};

use crate::stepped::push_rest_line;
use crate::traced::{MOST_TURNS, made_turn, push_made, quiet_after};
use crate::what::{Value, What, value_of};
use ga_asm::Images;
use ga_chip::Chip;
use ga_observe::{Deed, Step};
use ga_place::{Node, Side};
use ga_word::Word18;
use std::alloc::{AllocError, Global};
use std::fmt::Write;

/// Makes turns of all nodes, at most 1,000,000, until something that a node shows changes, or until
/// it becomes `goal`. A word that the node posts at a side is seen even if it is read in the same
/// turn. Answers the line of the node's step in that turn, if it makes one, and the old and the new
/// value; or why there is no change: no node can move any more, or all turns were made. Fails only
/// when out of memory. (The text is this project's own: profile.)
#[tactic(auto, unfolding(crate::specs::Watched::watched))]
pub fn watch(
    alloc: Global,
    chip: &mut Chip,
    images: Option<&Images>,
    node: Node,
    what: What,
    goal: &Option<Value>,
) -> Result<String, AllocError>
    ensures { IfOk result (λ text. (string_bytes text, chip.new)
        ≡ watched (images_in images.entry) node what goal.now chip.old) }
{
    watch_within(alloc, chip, images, node, what, goal, MOST_TURNS)
}

/// The same with at most `most` turns.
fn watch_within(
    alloc: Global,
    chip: &mut Chip,
    images: Option<&Images>,
    node: Node,
    what: What,
    goal: &Option<Value>,
    most: u64,
) -> Result<String, AllocError>
    ensures { IfOk result (λ text. (string_bytes text, chip.new)
        ≡ watched_from (images_in images.entry) node what goal.now most 0 0 chip.old) }
{
    let mut text = String::new(alloc);
    let mut quiet = 0;
    let mut old = value_of(chip, node, what);
    for number in 0..most {
        if quiet == 4 {
            push_no_change(&mut text, chip, node)?;
            return Ok(text);
        }
        let made = made_turn(chip, node, number);
        let end = value_of(chip, node, what);
        let new = value_in_turn(what, &made.step, &end);
        if changes_to(goal, &old, &new) {
            push_made(&mut text, images, &made, chip.state(node))?;
            push_change(&mut text, &old, &new, number + 1)?;
            return Ok(text);
        }
        quiet = quiet_after(quiet, made.moved);
        old = end;
    }
    push_no_change(&mut text, chip, node)?;
    Ok(text)
}

/// What a turn shows, by the step that the node made in it and the value behind it.
fn value_in_turn(what: What, step: &Option<Step>, end: &Value) -> Value
    ensures { result ≡ value_in_turn what step.now end.now }
{
    let (What::Pending(side), Some(step)) = (what, step) else {
        return *end;
    };
    match posted_at(side, step.deed) {
        Some(word) => Value::Word(word),
        None => *end,
    }
}

/// The word that a deed posts at a side.
fn posted_at(side: Side, deed: Deed) -> Option<Word18>
    ensures { result ≡ posted_at side deed }
{
    match deed {
        Deed::Posted(at, word) if is_same_side(at, side) => Some(word),
        _ => None,
    }
}

fn is_same_side(one: Side, other: Side) -> bool
    ensures { result ≡ (side_bit one == side_bit other) }
{
    matches!(
        (one, other),
        (Side::Right, Side::Right)
            | (Side::Down, Side::Down)
            | (Side::Left, Side::Left)
            | (Side::Up, Side::Up)
    )
}

/// Whether a value changes, or becomes the one that is waited for.
fn changes_to(goal: &Option<Value>, old: &Value, new: &Value) -> bool
    ensures { result ≡ changes_to goal.now old.now new.now }
{
    match goal {
        Some(goal) => goal.is(new) && !goal.is(old),
        None => !old.is(new),
    }
}

/// Adds a change, and behind how many turns it came.
fn push_change(text: &mut String, old: &Value, new: &Value, turns: u64) -> Result<(), AllocError>
    ensures { OnOk result (string_bytes text.new
        ≡ string_bytes text.old ++ change_line old.now new.now turns) }
{
    writeln!(text, "{old} -> {new} after {turns} turns")?;
    Ok(())
}

/// Adds that there is no change, and why the node makes no step.
fn push_no_change(text: &mut String, chip: &Chip, node: Node) -> Result<(), AllocError>
    ensures { OnOk result (string_bytes text.new
        ≡ string_bytes text.old ++ no_change_line node chip.now) }
{
    text.push_str("not reached, ")?;
    push_rest_line(text, chip, node)?;
    Ok(())
}
