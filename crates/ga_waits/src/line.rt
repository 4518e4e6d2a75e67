ghost use Rattle.std.specs.Prelude.{◌≡◌, ◌++◌, [], OnOk, if◌then◌else◌, string_bytes};
ghost use Rattle.ga_waits.specs.Begun as spec;
ghost use Rattle.ga_waits.specs.Label.{images_in};
ghost use Rattle.ga_waits.specs.Line.{node_lines, wait_line};
ghost use Rattle.ga_waits.specs.Waits.{text_of};

use crate::label::push_label;
use crate::op::push_op;
use crate::sides::push_need;
use ga_asm::Images;
use ga_chip::Chip;
use ga_node::{NodeState, Place};
use ga_place::{Node, idle_address, locate};
use ga_word::Hex3;
use std::alloc::AllocError;
use std::fmt::Write;

/// Adds the line of a node, if it has started.
pub fn push_line(
    text: &mut String,
    chip: &Chip,
    images: Option<&Images>,
    stuck: bool,
    node: Node,
) -> Result<(), AllocError>
    ensures { OnOk result (string_bytes text.new
        ≡ string_bytes text.old
        ++ text_of (node_lines (images_in images.entry) chip.now stuck node)) }
{
    let state = chip.state(node);
    if !has_begun(node, state) {
        return Ok(());
    }
    push_state(text, chip, images, stuck, node, state)?;
    text.push_str("\n")?;
    Ok(())
}

/// Whether a node has started: it has made a step, or was given words or a stream.
pub fn has_begun(node: Node, state: &NodeState) -> bool
    ensures { result ≡ spec.has_begun node state.now }
{
    state.steps() != 0 || state.place() != Place::Fetch || state.p() != idle_address(node)
}

/// Adds the line of a node in a state, without the line's end.
#[tactic(auto, unfolding(crate::specs::Line::wait_line))]
fn push_state(
    text: &mut String,
    chip: &Chip,
    images: Option<&Images>,
    stuck: bool,
    node: Node,
    state: &NodeState,
) -> Result<(), AllocError>
    ensures { OnOk result (string_bytes text.new
        ≡ string_bytes text.old
        ++ wait_line (images_in images.entry) chip.now stuck node state.now) }
{
    let p = Hex3::new(state.p());
    write!(text, "{node} P {p}")?;
    push_label(text, images, node, locate(state.p()))?;
    write!(text, " {}", state.place())?;
    push_op(text, state.place(), state.word())?;
    push_need(text, chip, node, state.need())?;
    push_if(text, chip.is_held(node), ", held")?;
    push_if(text, stuck, ", stuck")?;
    Ok(())
}

fn push_if(text: &mut String, so: bool, told: &str) -> Result<(), AllocError>
    ensures { OnOk result (string_bytes text.new
        ≡ string_bytes text.old ++ (if so then told.now else [])) }
{
    if so {
        text.push_str(told)?;
    }
    Ok(())
}
