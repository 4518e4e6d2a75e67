ghost use Rattle.std.specs.Prelude.{◌≡◌, ◌<◌, ◌++◌, ◌^◌, ◌∷◌, [], IfOk, OnOk, option_map, string_bytes};
ghost use Rattle.std.specs.Option.{option_map_or};
ghost use Rattle.ga_waits.specs.Label.{images_in};
ghost use Rattle.ga_debug.specs.Breaks.{begins_no_instruction, break_at, break_line, break_note, breaks_text, is_held_at, label_of, node_breaks};

use crate::address::Address;
use ga_asm::{Images, label_at};
use ga_chip::Chip;
use ga_disasm::{Item, items};
use ga_place::{Node, Where, locate};
use ga_word::Hex3;
use std::alloc::{AllocError, Global};
use std::fmt::Write;

/// The breakpoints of a chip, node by node and each on a line.
#[tactic(auto, unfolding(crate::specs::Breaks::breaks_text))]
pub(crate) fn breaks_text(
    alloc: Global,
    chip: &Chip,
    images: Option<&Images>,
) -> Result<String, AllocError>
    ensures { IfOk result (λ text. string_bytes text
        ≡ breaks_text (images_in images.entry) chip.now) }
{
    let mut text = String::new(alloc);
    for index in 0..144 {
        push_node_breaks(&mut text, chip, images, Node::at(index))?;
    }
    Ok(text)
}

/// Adds the breakpoints of a node.
#[tactic(auto, unfolding(crate::specs::Breaks::node_breaks))]
fn push_node_breaks(
    text: &mut String,
    chip: &Chip,
    images: Option<&Images>,
    node: Node,
) -> Result<(), AllocError>
    ensures { OnOk result (string_bytes text.new
        ≡ string_bytes text.old ++ node_breaks (images_in images.entry) chip.now node) }
{
    for address in 0..512 {
        push_break_at(text, chip, images, node, address)?;
    }
    Ok(())
}

/// Adds the line of an address, if it is a breakpoint.
#[tactic(auto, unfolding(crate::specs::Breaks::break_line))]
fn push_break_at(
    text: &mut String,
    chip: &Chip,
    images: Option<&Images>,
    node: Node,
    address: u16,
) -> Result<(), AllocError>
    requires { address < 2 ^ 9 }
    ensures { OnOk result (string_bytes text.new
        ≡ string_bytes text.old ++ break_at (images_in images.entry) chip.now node address) }
{
    if !chip.has_break(node, address) {
        return Ok(());
    }
    let number = Hex3::new(address);
    write!(text, "{node} {number}")?;
    push_label(text, label_of(images, node, address))?;
    text.push_str(if is_held_at(chip, node, address) {
        ", held\n"
    } else {
        "\n"
    })
}

/// Adds a label behind a space.
fn push_label(text: &mut String, label: Option<&str>) -> Result<(), AllocError>
    ensures { OnOk result (string_bytes text.new
        ≡ string_bytes text.old ++ option_map_or (λ label. 32 ∷ label.now) label.entry []) }
{
    if let Some(label) = label {
        write!(text, " {label}")?;
    }
    Ok(())
}

/// The first label of a node that has an address.
fn label_of<'a>(images: Option<&'a Images>, node: Node, address: u16) -> Option<&'a str>
    ensures { option_map (λ label. label.now) result
        ≡ label_of (images_in images.entry) node address }
{
    let image = images?.image_of(node)?;
    label_at(image.labels(), u32::from(address))
}

/// Whether a node is held at an address.
pub(crate) fn is_held_at(chip: &Chip, node: Node, address: u16) -> bool
    ensures { result ≡ is_held_at chip.now node address }
{
    chip.is_held(node) && chip.state(node).p() % 512 == address
}

/// The note behind the reply to `break`: whether an instruction begins at the address.
pub(crate) fn break_note(
    alloc: Global,
    images: Option<&Images>,
    node: Node,
    address: Address,
) -> Result<&'static str, AllocError>
    ensures { IfOk result (λ note. note.now ≡ break_note (images_in images.entry) node address) }
{
    if begins_no_instruction(alloc, images, node, address)? {
        Ok(", but no instruction begins there")
    } else {
        Ok("")
    }
}

/// Whether the word at an address is a follower or data of the node's image.
fn begins_no_instruction(
    alloc: Global,
    images: Option<&Images>,
    node: Node,
    address: Address,
) -> Result<bool, AllocError>
    ensures { IfOk result (λ none. none
        ≡ begins_no_instruction (images_in images.entry) node address) }
{
    let image = images.and_then(|images| images.image_of(node));
    let (Some(image), Where::Ram(index)) = (image, locate(address.get())) else {
        return Ok(false);
    };
    let found = items(alloc, image.words(), image.code_len())?;
    match found.get(usize::from(index)) {
        Some(Item::Follower(_) | Item::Data(_)) => Ok(true),
        Some(Item::Code(_)) | None => Ok(false),
    }
}
