//! The listing of a node's memory around an address.
ghost use Rattle.std.specs.Prelude.{◌≡◌, ◌++◌, ◌<◌, ◌≤◌, IfOk, OnOk, length, map, string_bytes};
ghost use Rattle.ga_asm.specs.Image.{labels_of};
ghost use Rattle.ga_disasm.specs.Disassembling.{item_view};
ghost use Rattle.ga_waits.specs.Label.{images_in};
ghost use Rattle.ga_debug.specs.Code.{code_shown, index_of_word, mark_at, number_text, reading_text, word_line, words_around};

use crate::address::Address;
use ga_asm::Images;
use ga_disasm::{Item, items};
use ga_list::{push_item, push_labels};
use ga_node::NodeState;
use ga_place::{Where, locate};
use ga_trace::at_word;
use ga_word::{Hex3, Word18};
use indexmap::IndexMap;
use std::alloc::{AllocError, Global};
use std::fmt::Write;

/// The listing of a node's memory: twelve words around an address, or else around the word in
/// execution, which has a mark.
#[tactic(auto, unfolding(crate::specs::Code::code_shown))]
pub(crate) fn code_text(
    alloc: Global,
    state: &NodeState,
    images: Option<&Images>,
    from: Option<Address>,
) -> Result<String, AllocError>
    ensures { IfOk result (λ text. string_bytes text
        ≡ code_shown (images_in images.entry) from state.now) }
{
    let at = index_of_word(state);
    let center = match from {
        Some(address) => usize::from(address.get()),
        None => at.unwrap_or(0),
    };
    let first = center.saturating_sub(4);
    let ram = state.ram();
    match images.and_then(|images| images.image_of(state.node())) {
        Some(image) => {
            let found = items(alloc, ram, image.code_len())?;
            words_around(alloc, image.labels(), at, first, ram, &found)
        }
        None => {
            let found = items(alloc, ram, 64)?;
            words_around(alloc, &IndexMap::new(alloc), at, first, ram, &found)
        }
    }
}

/// The index of the word in execution, or that a node is about to fetch, if it is in memory.
fn index_of_word(state: &NodeState) -> Option<usize>
    ensures { result ≡ index_of_word state.now }
{
    match locate(at_word(state.place(), state.p(), state.word())) {
        Where::Ram(index) => Some(usize::from(index)),
        _ => None,
    }
}

/// Twelve words from an index on, as far as memory reaches.
#[tactic(auto, unfolding(crate::specs::Code::words_around))]
fn words_around(
    alloc: Global,
    labels: &IndexMap<String, u8>,
    at: Option<usize>,
    first: usize,
    ram: &[Word18],
    items: &[Item],
) -> Result<String, AllocError>
    requires { length ram.now ≡ 64 }
    ensures { IfOk result (λ text. string_bytes text ≡ words_around
        (labels_of labels.now.entries) at first ram.now (map item_view items.now)) }
{
    let mut text = String::new(alloc);
    let most = 12.min(64_usize.saturating_sub(first));
    for index in 0..most {
        push_word_line(&mut text, labels, at, ram, items, first + index)?;
    }
    Ok(text)
}

/// Adds the line of the word at an index, behind lines of its labels.
fn push_word_line(
    text: &mut String,
    labels: &IndexMap<String, u8>,
    at: Option<usize>,
    ram: &[Word18],
    items: &[Item],
    index: usize,
) -> Result<(), AllocError>
    requires ram { length ram.now ≡ 64 }
    requires index { index < 64 }
    ensures { OnOk result (string_bytes text.new ≡ string_bytes text.old ++ word_line
        (labels_of labels.now.entries) at ram.now (map item_view items.now) index) }
{
    push_labels(text, labels, index)?;
    push_number(text, at, index, ram[index])?;
    push_reading(text, labels, items, index)?;
    Ok(())
}

/// Adds the mark, the address and the number of a word.
fn push_number(
    text: &mut String,
    at: Option<usize>,
    index: usize,
    word: Word18,
) -> Result<(), AllocError>
    requires { index < 64 }
    ensures { OnOk result (string_bytes text.new
        ≡ string_bytes text.old ++ number_text at index word) }
{
    let address = Hex3::new(index as u16);
    write!(text, "{}{address}  {word}  ", mark_at(at, index))?;
    Ok(())
}

/// Adds the kind of the word at an index, what it reads as, and the line's end.
fn push_reading(
    text: &mut String,
    labels: &IndexMap<String, u8>,
    items: &[Item],
    index: usize,
) -> Result<(), AllocError>
    requires { index < 64 }
    ensures { OnOk result (string_bytes text.new ≡ string_bytes text.old ++ reading_text
        (labels_of labels.now.entries) (map item_view items.now) index) }
{
    match items.get(index) {
        Some(item) => push_item(text, labels, index, item),
        None => text.push_str("\n"),
    }
}

/// The mark in front of a word.
fn mark_at(at: Option<usize>, index: usize) -> &'static str
    ensures { result.now ≡ mark_at at index }
{
    match at {
        Some(at) if at == index => "> ",
        _ => "  ",
    }
}
