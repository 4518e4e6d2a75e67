//! The instructions of a word, with labels for destinations.
ghost use Rattle.std.specs.Prelude.{◌≡◌, ◌<◌, ◌++◌, ◌∷◌, [], OnOk, string_bytes};
ghost use Rattle.ga_asm.specs.Image.{labels_of};
ghost use Rattle.ga_disasm.specs.Disassembling.{item_view};
ghost use Rattle.ga_disasm.specs.Printing.{behind_spaces, spare_texts};
ghost use Rattle.ga_list.specs.Reading as spec;
ghost use Rattle.ga_list.specs.Reading.{reading_line};

use ga_asm::{label_at, p_behind};
use ga_disasm::{Item, push_ops};
use ga_pack::{Packed, dest_bound};
use indexmap::IndexMap;
use std::alloc::AllocError;
use std::fmt::Write;

/// Adds what the word at an address of a node reads as, with labels for destinations, and the
/// line's end. (The text is this project's own: profile.)
pub fn push_reading(
    text: &mut String,
    labels: &IndexMap<String, u8>,
    address: usize,
    item: &Item,
) -> Result<(), AllocError>
    requires { address < 64 }
    ensures { OnOk result (string_bytes text.new ≡ string_bytes text.old
        ++ reading_line (labels_of labels.now.entries) address (item_view item.now)) }
{
    match item {
        Item::Code(packed) => push_code(text, labels, address, packed)?,
        Item::Follower(word) | Item::Data(word) => writeln!(text, ", ${word}")?,
    }
    Ok(())
}

/// Adds a word in brackets, and the line's end.
fn push_code(
    text: &mut String,
    labels: &IndexMap<String, u8>,
    address: usize,
    packed: &Packed,
) -> Result<(), AllocError>
    requires { address < 64 }
    ensures { OnOk result (string_bytes text.new ≡ string_bytes text.old
        ++ reading_line (labels_of labels.now.entries) address (item_view (Item.Code packed.now))) }
{
    text.push_str("[")?;
    push_ops(text, packed.ops.as_slice())?;
    if let Some(dest) = packed.dest {
        let target = target(address, packed, dest);
        push_dest(text, labels, target, dest)?;
        push_spare(text, packed.spare)?;
    }
    text.push_str(" ]\n")?;
    Ok(())
}

/// Adds the label of a destination's address behind a space, or else its field.
fn push_dest(
    text: &mut String,
    labels: &IndexMap<String, u8>,
    target: u32,
    dest: u16,
) -> Result<(), AllocError>
    ensures { OnOk result (string_bytes text.new ≡ string_bytes text.old
        ++ behind_spaces (spec.dest_text (labels_of labels.now.entries) target dest ∷ [])) }
{
    match label_at(labels, target) {
        Some(name) => write!(text, " {name}")?,
        None => write!(text, " ${dest:05X}")?,
    }
    Ok(())
}

/// Adds the spare bits if they are not 0, each text behind a space.
fn push_spare(text: &mut String, spare: u8) -> Result<(), AllocError>
    ensures { OnOk result (string_bytes text.new ≡ string_bytes text.old
        ++ behind_spaces (spare_texts spare)) }
{
    if spare != 0 {
        write!(text, " / {spare}")?;
    }
    Ok(())
}

/// The address that a destination of the word at an address means: P in its slot, of which it
/// replaces the low bits, as many as it has.
fn target(address: usize, packed: &Packed, dest: u16) -> u32
    requires { address < 64 }
    ensures { result ≡ spec.target address packed.now.ops.items dest }
{
    let bound = u32::from(dest_bound(packed.ops.len().saturating_sub(1)));
    let p = u32::from(p_behind(address as u8, packed.ops.as_slice()));
    p / bound * bound + u32::from(dest)
}
