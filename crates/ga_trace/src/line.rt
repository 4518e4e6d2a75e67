//! The line of a step.
ghost use Rattle.std.specs.Prelude.{◌≡◌, ◌++◌, OnOk, codes, string_bytes};
ghost use Rattle.ga_waits.specs.Label.{images_in};
ghost use Rattle.ga_trace.specs.Line.{deed_text, step_line, work_text};

use crate::at::at_word;
use crate::changes::push_changes;
use ga_asm::Images;
use ga_dump::side_name;
use ga_node::NodeState;
use ga_observe::{Deed, Step};
use ga_place::locate;
use ga_waits::push_label;
use ga_word::Hex3;
use std::alloc::AllocError;
use std::fmt::Write;

/// Adds the line of a step, by the states of its node before it and after it.
#[tactic(auto, unfolding(crate::specs::Line::step_line))]
pub(crate) fn push_step(
    text: &mut String,
    images: Option<&Images>,
    step: &Step,
    old: &NodeState,
    new: &NodeState,
) -> Result<(), AllocError>
    ensures { OnOk result (string_bytes text.new ≡ string_bytes text.old
        ++ step_line (images_in images.entry) step.now old.now new.now) }
{
    let address = at_word(step.place, old.p(), step.word);
    let shown = Hex3::new(address);
    write!(text, "{} {shown}", new.steps())?;
    push_label(text, images, step.node, locate(address))?;
    push_work(text, step)?;
    push_deed(text, step.deed)?;
    push_changes(text, old, new)?;
    text.push_str("\n")
}

/// Adds what a step ran, behind two blanks: the opcode, or its place if that is no slot.
fn push_work(text: &mut String, step: &Step) -> Result<(), AllocError>
    ensures { OnOk result (string_bytes text.new
        ≡ string_bytes text.old ++ (codes "  " ++ work_text step.now)) }
{
    match step.op() {
        Some(op) => write!(text, "  {op}")?,
        None => write!(text, "  {}", step.place)?,
    }
    Ok(())
}

/// Adds what a step did with a neighbour or a stream.
fn push_deed(text: &mut String, deed: Deed) -> Result<(), AllocError>
    ensures { OnOk result (string_bytes text.new ≡ string_bytes text.old ++ deed_text deed) }
{
    match deed {
        Deed::Own => {}
        Deed::Posted(side, word) => write!(text, "  posts {} {word}", side_name(side))?,
        Deed::Took { side, word, .. } => write!(text, "  takes {} {word}", side_name(side))?,
        Deed::SawRead(side) => write!(text, "  sees {} read", side_name(side))?,
        Deed::TookInput(word) => write!(text, "  takes input {word}")?,
    }
    Ok(())
}
