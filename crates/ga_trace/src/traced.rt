//! Turns of all nodes, and the steps of one of them.
ghost use Rattle.std.specs.Prelude.{◌≡◌, ◌==◌, ◌+◌, ◌++◌, ◌≤◌, [], IfOk, OnOk, if◌then◌else◌, string_bytes};
ghost use Rattle.ga_waits.specs.Label.{images_in};
ghost use Rattle.ga_trace.specs.Stepped.{rest_line};
ghost use Rattle.ga_trace.specs.Traced.{is_over, less_by, quiet_after, traced, traced_from};
ghost use Rattle.ga_trace.specs.inner.Traced.{IsMade, made_line};

use crate::last::LastStep;
use crate::line::push_step;
use crate::stepped::push_rest_line;
use ga_asm::Images;
use ga_chip::Chip;
use ga_node::NodeState;
use ga_observe::{Step, turn};
use ga_place::Node;
use std::alloc::{AllocError, Global};

/// The most turns of a trace.
pub(crate) const MOST_TURNS: u64 = 1_000_000;

/// Makes turns of all nodes, at most 1,000,000, until a node has made `steps` steps. Answers a line
/// for each of them, and behind these, if it makes fewer, why: it is held, or no node can move any
/// more. Fails only when out of memory. (The text is this project's own: profile.)
#[tactic(auto, unfolding(crate::specs::Traced::traced))]
pub fn trace(
    alloc: Global,
    chip: &mut Chip,
    images: Option<&Images>,
    node: Node,
    steps: u32,
) -> Result<String, AllocError>
    ensures { IfOk result (λ text. (string_bytes text, chip.new)
        ≡ traced (images_in images.entry) node steps chip.old) }
{
    trace_within(alloc, chip, images, node, steps, MOST_TURNS)
}

/// The same with at most `most` turns.
fn trace_within(
    alloc: Global,
    chip: &mut Chip,
    images: Option<&Images>,
    node: Node,
    steps: u32,
    most: u64,
) -> Result<String, AllocError>
    ensures { IfOk result (λ text. (string_bytes text, chip.new)
        ≡ traced_from (images_in images.entry) node most 0 0 steps chip.old) }
{
    let mut text = String::new(alloc);
    let mut left = steps;
    let mut quiet = 0;
    for number in 0..most {
        if left == 0 {
            return Ok(text);
        }
        if is_over(chip, node, quiet) {
            push_rest_line(&mut text, chip, node)?;
            return Ok(text);
        }
        let made = made_turn(chip, node, number);
        push_made(&mut text, images, &made, chip.state(node))?;
        quiet = quiet_after(quiet, made.moved);
        left = less_by(left, made.step);
    }
    push_end(&mut text, chip, node, left)?;
    Ok(text)
}

/// Adds why a node makes no step, unless none is left.
fn push_end(text: &mut String, chip: &Chip, node: Node, left: u32) -> Result<(), AllocError>
    ensures { OnOk result (string_bytes text.new
        ≡ string_bytes text.old ++ (if left == 0 then [] else rest_line node chip.now)) }
{
    if left == 0 {
        return Ok(());
    }
    push_rest_line(text, chip, node)
}

/// A turn that was made: how many steps it made, the step of one node, if it made one, and that
/// node's state before.
#[derive(Drop)]
pub(crate) struct MadeTurn {
    pub(crate) moved: u8,
    pub(crate) step: Option<Step>,
    pub(crate) old: NodeState,
}

/// Makes the turn of a number, and watches one node.
pub(crate) fn made_turn(chip: &mut Chip, node: Node, number: u64) -> MadeTurn
    ensures { IsMade node number chip.old chip.new result }
{
    let old = chip.state(node).copied();
    let mut last = LastStep::of(node);
    let moved = turn(chip, &mut last, number);
    MadeTurn {
        moved,
        step: last.step,
        old,
    }
}

/// Adds the line of the node's step in a turn that was made, by the node's state behind it.
pub(crate) fn push_made(
    text: &mut String,
    images: Option<&Images>,
    made: &MadeTurn,
    new: &NodeState,
) -> Result<(), AllocError>
    ensures { OnOk result (string_bytes text.new ≡ string_bytes text.old
        ++ made_line (images_in images.entry) made.now new.now) }
{
    match &made.step {
        Some(step) => push_step(text, images, step, &made.old, new),
        None => Ok(()),
    }
}

/// Whether a node makes no step any more, after turns of which the last ones were quiet.
fn is_over(chip: &Chip, node: Node, quiet: u8) -> bool
    ensures { result ≡ is_over node quiet chip.now }
{
    quiet == 4 || chip.is_held(node)
}

/// How many turns in a row made no step, after one more.
pub(crate) fn quiet_after(quiet: u8, moved: u8) -> u8
    requires { quiet ≤ 4 }
    ensures value { result ≡ quiet_after quiet moved }
    ensures most { result ≤ quiet + 1 }
{
    if moved == 0 { quiet + 1 } else { 0 }
}

/// One step less, if there was one.
fn less_by(steps: u32, step: Option<Step>) -> u32
    ensures { result ≡ less_by steps step }
{
    match step {
        Some(_) => steps.saturating_sub(1),
        None => steps,
    }
}
