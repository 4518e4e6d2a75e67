//! Who waits for whom, with the idle nodes in one line.
ghost use Rattle.std.specs.Prelude.{◌≡◌, ◌++◌, ℕ, IfOk, OnOk, string_bytes};
ghost use Rattle.ga_chip.specs.Stuck.{has_node};
ghost use Rattle.ga_waits.specs.Closed.{stuck_in};
ghost use Rattle.ga_waits.specs.Label.{images_in};
ghost use Rattle.ga_waits.specs.Folded.{all_busy_lines, busy_lines, idle_name, idle_names, is_idle, is_idle_state, line_of_idle, nodes_text};
ghost use Rattle.ga_waits.specs.Waits.{text_of};

use crate::line::push_line;
use crate::text::push_rings;
use ga_asm::Images;
use ga_chip::{Chip, StuckNodes};
use ga_node::{NodeState, Place};
use ga_place::{Node, idle_address};
use std::alloc::{AllocError, Global};
use std::fmt::Write;

/// Who waits for whom, as [`crate::waits`] shows it, but with one line for all idle nodes, which
/// stands in front of the rings. A node is idle if it has made steps and is about to fetch at its
/// idle address. Fails only when out of memory. (The text is this project's own: profile.)
#[tactic(auto, unfolding(crate::specs::Folded::nodes_text))]
pub fn nodes(alloc: Global, chip: &Chip, images: Option<&Images>) -> Result<String, AllocError>
    ensures { IfOk result (λ text. string_bytes text
        ≡ nodes_text (images_in images.entry) chip.now) }
{
    let mut text = String::new(alloc);
    chip.legal();
    push_busy(&mut text, chip, images, &chip.stuck())?;
    let names = idle_names(alloc, chip)?;
    push_idle(&mut text, names.as_str())?;
    push_rings(&mut text, chip)?;
    Ok(text)
}

/// Adds the lines of all nodes that have started and aren't idle.
fn push_busy(
    text: &mut String,
    chip: &Chip,
    images: Option<&Images>,
    stuck: &StuckNodes,
) -> Result<(), AllocError>
    requires stuck { (name : ℕ) → has_node stuck.now name ≡ stuck_in chip.now name }
    ensures { OnOk result (string_bytes text.new
        ≡ string_bytes text.old ++ text_of (all_busy_lines (images_in images.entry) chip.now)) }
{
    for index in 0..144 {
        push_busy_line(text, chip, images, stuck, Node::at(index))?;
    }
    Ok(())
}

/// Adds the line of a node that has started, unless it is idle.
pub(crate) fn push_busy_line(
    text: &mut String,
    chip: &Chip,
    images: Option<&Images>,
    stuck: &StuckNodes,
    node: Node,
) -> Result<(), AllocError>
    requires stuck { (name : ℕ) → has_node stuck.now name ≡ stuck_in chip.now name }
    ensures { OnOk result (string_bytes text.new
        ≡ string_bytes text.old ++ text_of (busy_lines (images_in images.entry) chip.now node)) }
{
    if is_idle(chip, node) {
        return Ok(());
    }
    push_line(text, chip, images, stuck.contains(node), node)?;
    Ok(())
}

/// The names of the idle nodes, each behind a blank.
#[tactic(auto, unfolding(crate::specs::Folded::idle_names))]
pub(crate) fn idle_names(alloc: Global, chip: &Chip) -> Result<String, AllocError>
    ensures { IfOk result (λ names. string_bytes names ≡ idle_names chip.now) }
{
    let mut names = String::new(alloc);
    for index in 0..144 {
        push_idle_name(&mut names, chip, Node::at(index))?;
    }
    Ok(names)
}

/// Adds the name of a node, if it is idle.
fn push_idle_name(names: &mut String, chip: &Chip, node: Node) -> Result<(), AllocError>
    ensures { OnOk result (string_bytes names.new
        ≡ string_bytes names.old ++ idle_name chip.now node) }
{
    if is_idle(chip, node) {
        write!(names, " {node}")?;
    }
    Ok(())
}

/// Adds a line of the names of the idle nodes, if there is one.
pub(crate) fn push_idle(text: &mut String, names: &str) -> Result<(), AllocError>
    ensures { OnOk result (string_bytes text.new
        ≡ string_bytes text.old ++ line_of_idle names.now) }
{
    if names.is_empty() {
        return Ok(());
    }
    writeln!(text, "idle:{names}")?;
    Ok(())
}

/// Whether a node is idle: it has made steps, is about to fetch at its idle address, and isn't
/// held.
pub fn is_idle(chip: &Chip, node: Node) -> bool
    ensures { result ≡ is_idle chip.now node }
{
    !chip.is_held(node) && is_idle_state(node, chip.state(node))
}

fn is_idle_state(node: Node, state: &NodeState) -> bool
    ensures { result ≡ is_idle_state node state.now }
{
    state.steps() != 0 && state.place() == Place::Fetch && state.p() == idle_address(node)
}
