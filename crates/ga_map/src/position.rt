//! A node with its place in its program, and what it does.
ghost use Rattle.std.specs.Prelude.{◌≡◌, ◌++◌, OnOk, string_bytes};
ghost use Rattle.ga_waits.specs.Label.{images_in};
ghost use Rattle.ga_map.specs.Position.{position};

use ga_asm::Images;
use ga_chip::Chip;
use ga_place::{Node, locate};
use ga_trace::at_word;
use ga_waits::{push_doing, push_label};
use ga_word::Hex3;
use std::alloc::AllocError;
use std::fmt::Write;

/// Adds a node, the address of the word in execution, or before a fetch P, its label, and what the
/// node does.
#[tactic(auto, unfolding(crate::specs::Position::position))]
pub(crate) fn push_position(
    text: &mut String,
    chip: &Chip,
    images: Option<&Images>,
    node: Node,
) -> Result<(), AllocError>
    ensures { OnOk result (string_bytes text.new ≡ string_bytes text.old
        ++ position (images_in images.entry) chip.now node) }
{
    let state = chip.state(node);
    let address = at_word(state.place(), state.p(), state.word());
    let shown = Hex3::new(address);
    write!(text, "{node} at {shown}")?;
    push_label(text, images, node, locate(address))?;
    text.push_str(" ")?;
    push_doing(text, chip, node)
}
