//! What a word of memory is in the program of its node.
ghost use Rattle.std.specs.Prelude.{◌≡◌, ◌<◌, ◌≤◌, ◌++◌, IfOk, OnOk, length, map, slice_get, string_bytes};
ghost use Rattle.ga_word.specs.Hex.{hex_digits};
ghost use Rattle.ga_asm.specs.Image.{labels_of};
ghost use Rattle.ga_disasm.specs.Disassembling.{item_view};
ghost use Rattle.ga_waits.specs.Label.{images_in};
ghost use Rattle.ga_profile.specs.Code as spec;

use crate::share::push_cell;
use ga_asm::{Image, Images};
use ga_disasm::{Item, items};
use ga_list::push_reading;
use ga_place::{Node, Where};
use ga_waits::push_label;
use ga_word::Hex3;
use indexmap::IndexMap;
use std::alloc::{AllocError, Global};

/// The address and the label of a word that was loaded, what it reads as, and the line's end; or
/// nothing.
pub(crate) fn code_of(
    alloc: Global,
    images: Option<&Images>,
    node: Node,
    word: Option<u8>,
) -> Result<String, AllocError>
    ensures { IfOk result (λ code.
        string_bytes code ≡ spec.code_of (images_in images.entry) node word) }
{
    let mut code = String::new(alloc);
    push_code(&mut code, alloc, images, node, word)?;
    Ok(code)
}

/// Adds a word that was loaded, with its address and label, and the line's end; or nothing.
fn push_code(
    text: &mut String,
    alloc: Global,
    images: Option<&Images>,
    node: Node,
    word: Option<u8>,
) -> Result<(), AllocError>
    ensures { OnOk result (string_bytes text.new ≡ string_bytes text.old
        ++ spec.code_of (images_in images.entry) node word) }
{
    let Some(word) = word else {
        return Ok(());
    };
    let mut label = String::new(alloc);
    push_label(&mut label, images, node, Where::Ram(word))?;
    match images.and_then(|images| images.image_of(node)) {
        Some(image) => push_word(text, alloc, image, label.as_str(), word),
        None => Ok(()),
    }
}

/// Adds a word of an image behind its label.
fn push_word(
    text: &mut String,
    alloc: Global,
    image: &Image,
    label: &str,
    word: u8,
) -> Result<(), AllocError>
    ensures { OnOk result (string_bytes text.new ≡ string_bytes text.old
        ++ spec.word_of_image image.now label.now word) }
{
    let items = items(alloc, image.words(), image.code_len())?;
    push_item(text, alloc, image.labels(), items.as_slice(), label, word)
}

/// Adds a word behind its label, if it was loaded.
fn push_item(
    text: &mut String,
    alloc: Global,
    labels: &IndexMap<String, u8>,
    items: &[Item],
    label: &str,
    word: u8,
) -> Result<(), AllocError>
    requires { length items.now ≤ 64 }
    ensures { OnOk result (string_bytes text.new ≡ string_bytes text.old
        ++ spec.labelled_if label.now (labels_of labels.now.entries) word
        (slice_get (map item_view items.now) word)) }
{
    match items.get(usize::from(word)) {
        Some(item) => push_labelled(text, alloc, labels, label, word, item),
        None => Ok(()),
    }
}

/// Adds a word that was loaded behind its label.
fn push_labelled(
    text: &mut String,
    alloc: Global,
    labels: &IndexMap<String, u8>,
    label: &str,
    word: u8,
    item: &Item,
) -> Result<(), AllocError>
    requires { word < 64 }
    ensures { OnOk result (string_bytes text.new ≡ string_bytes text.old
        ++ spec.labelled label.now (labels_of labels.now.entries) word (item_view item.now)) }
{
    push_cell(text, 6, address_text(alloc, word)?.as_str())?;
    push_cell(text, 15, label)?;
    text.push_str("  ")?;
    push_reading(text, labels, usize::from(word), item)
}

/// Adds the address of a word without code, with the label before it, and the line's end.
pub(crate) fn push_unloaded(
    text: &mut String,
    alloc: Global,
    images: Option<&Images>,
    node: Node,
    word: Option<u8>,
) -> Result<(), AllocError>
    ensures { OnOk result (string_bytes text.new ≡ string_bytes text.old
        ++ spec.unloaded_text (images_in images.entry) node word) }
{
    match word {
        Some(word) => {
            push_cell(text, 6, address_text(alloc, word)?.as_str())?;
            push_label(text, images, node, Where::Ram(word))?;
        }
        None => push_cell(text, 6, ".")?,
    }
    text.push_str("\n")
}

/// The address of a word.
fn address_text(alloc: Global, word: u8) -> Result<String, AllocError>
    ensures { IfOk result (λ text. string_bytes text ≡ hex_digits 3 word) }
{
    hex_text(alloc, Hex3::new(u16::from(word)))
}

fn hex_text(alloc: Global, address: Hex3) -> Result<String, AllocError>
    ensures { IfOk result (λ text. string_bytes text ≡ hex_digits 3 address) }
{
    format!(in alloc; "{address}")
}
