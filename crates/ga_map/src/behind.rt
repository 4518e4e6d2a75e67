//! The nodes that wait for good, and aren't in a ring.
ghost use Rattle.std.specs.Prelude.{◌≡◌, ◌++◌, ℕ, IfOk, OnOk, string_bytes};
ghost use Rattle.ga_chip.specs.Stuck.{has_node};
ghost use Rattle.ga_waits.specs.Closed.{stuck_in};
ghost use Rattle.ga_map.specs.Behind.{behind_name, behind_names, is_behind, line_of_behind};

use crate::mark::{is_waiting, mark_of};
use crate::rings::in_ring;
use ga_chip::{Chip, StuckNodes};
use ga_place::Node;
use std::alloc::{AllocError, Global};
use std::fmt::Write;

/// The names of the nodes that wait for good and aren't in a ring, in order of name, each behind a
/// blank. Fails only when out of memory. (The text is this project's own: profile.)
pub fn stuck_names(alloc: Global, chip: &Chip) -> Result<String, AllocError>
    ensures { IfOk result (λ names. string_bytes names ≡ behind_names chip.now) }
{
    chip.legal();
    behind_names(alloc, chip, &chip.stuck())
}

/// The same names, by the nodes that wait for good.
#[tactic(auto, unfolding(crate::specs::Behind::behind_names))]
fn behind_names(alloc: Global, chip: &Chip, stuck: &StuckNodes) -> Result<String, AllocError>
    requires stuck { (name : ℕ) → has_node stuck.now name ≡ stuck_in chip.now name }
    ensures { IfOk result (λ names. string_bytes names ≡ behind_names chip.now) }
{
    let mut names = String::new(alloc);
    for index in 0..144 {
        push_name(&mut names, chip, stuck, Node::at(index))?;
    }
    Ok(names)
}

/// Adds the name of a node, if it waits for good and isn't in a ring.
fn push_name(
    names: &mut String,
    chip: &Chip,
    stuck: &StuckNodes,
    node: Node,
) -> Result<(), AllocError>
    requires stuck { (name : ℕ) → has_node stuck.now name ≡ stuck_in chip.now name }
    ensures { OnOk result (string_bytes names.new
        ≡ string_bytes names.old ++ behind_name chip.now node) }
{
    if is_behind(chip, node, stuck.contains(node)) {
        write!(names, " {node}")?;
    }
    Ok(())
}

fn is_behind(chip: &Chip, node: Node, stuck: bool) -> bool
    ensures { result ≡ is_behind chip.now node stuck }
{
    stuck && is_waiting(mark_of(chip, node)) && !in_ring(chip, node)
}

/// Adds a line of these names, if there are any.
pub(crate) fn push_behind(text: &mut String, names: &str) -> Result<(), AllocError>
    ensures { OnOk result (string_bytes text.new
        ≡ string_bytes text.old ++ line_of_behind names.now) }
{
    if names.is_empty() {
        return Ok(());
    }
    writeln!(text, "stuck:{names}")?;
    Ok(())
}
