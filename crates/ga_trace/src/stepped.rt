//! Steps of one node alone.
ghost use Rattle.std.specs.Prelude.{◌≡◌, ◌++◌, IfOk, OnOk, Some, string_bytes};
ghost use Rattle.ga_chip.specs.Chip.{state_of};
ghost use Rattle.ga_waits.specs.Label.{images_in};
ghost use Rattle.ga_trace.specs.Stepped.{line_between, one_step, rest_line, stepped};
ghost use Rattle.ga_trace.specs.inner.Stepped.{Tells};

use crate::last::LastStep;
use crate::line::push_step;
use ga_asm::Images;
use ga_chip::{Chip, Outcome, Try};
use ga_observe::{Step, attempt};
use ga_place::{Node, SIDES};
use ga_waits::push_rest;
use std::alloc::{AllocError, Global};

/// Makes tries of a node, each at the first side that moves it, until it has made `count` steps.
/// Answers a line for each step, and behind these, if it makes fewer, why. Fails only when out of
/// memory. (The text is this project's own: profile.)
pub fn step(
    alloc: Global,
    chip: &mut Chip,
    images: Option<&Images>,
    node: Node,
    count: u32,
) -> Result<String, AllocError>
    ensures { IfOk result (λ text. (string_bytes text, chip.new)
        ≡ stepped (images_in images.entry) node count chip.old) }
{
    let mut text = String::new(alloc);
    for done in 0..count {
        let made = push_one_step(&mut text, chip, images, node)?;
        if !made {
            return Ok(text);
        }
    }
    Ok(text)
}

/// Makes a step of a node, and adds its line, or why there is none. Answers whether there is one.
fn push_one_step(
    text: &mut String,
    chip: &mut Chip,
    images: Option<&Images>,
    node: Node,
) -> Result<bool, AllocError>
    ensures { IfOk result (Tells (images_in images.entry) node chip.old chip.new
        (string_bytes text.old) (string_bytes text.new)) }
{
    let old = chip.state(node).copied();
    match one_step(chip, node) {
        Some(step) => {
            push_step(text, images, &step, &old, chip.state(node))?;
            Ok(true)
        }
        None => {
            push_rest_line(text, chip, node)?;
            Ok(false)
        }
    }
}

/// Makes a step of a node by a try at the first side that moves it, if there is one.
#[tactic(auto, unfolding(crate::specs::Stepped::one_step))]
fn one_step(chip: &mut Chip, node: Node) -> Option<Step>
    ensures { (result, chip.new) ≡ one_step node chip.old }
{
    for side in SIDES {
        let mut last = LastStep::of(node);
        if let Outcome::Moved = attempt(chip, &mut last, Try { node, side }, 0) {
            return last.step;
        }
    }
    None
}

/// Adds why a node makes no step, as a line.
pub(crate) fn push_rest_line(text: &mut String, chip: &Chip, node: Node) -> Result<(), AllocError>
    ensures { OnOk result (string_bytes text.new
        ≡ string_bytes text.old ++ rest_line node chip.now) }
{
    push_rest(text, chip, node)?;
    text.push_str("\n")
}
