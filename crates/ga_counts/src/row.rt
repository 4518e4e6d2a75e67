//! The lines of a node's words, with their counts.
ghost use Rattle.std.specs.Prelude.{◌≡◌, ◌+◌, ◌<◌, ◌++◌, OnOk, map, string_bytes};
ghost use Rattle.ga_asm.specs.Image.{labels_of};
ghost use Rattle.ga_disasm.specs.Disassembling.{item_view};
ghost use Rattle.ga_source.specs.Token.{place_of};
ghost use Rattle.ga_counts.specs.Row as spec;
ghost use Rattle.ga_counts.specs.Row.{opcodes_in, place_text, row_text, rows_of};

use crate::columns::{push_counts, push_number};
use crate::counts::Counts;
use crate::heat::{heat, is_hot, most_heat};
use crate::word_counts::WordCounts;
use ga_asm::Image;
use ga_disasm::{Item, items};
use ga_list::{push_item, push_labels};
use ga_place::Node;
use ga_source::Place;
use ga_word::{Hex3, Word18};
use indexmap::IndexMap;
use std::alloc::{AllocError, Global};
use std::fmt::Write;

/// A word of a node, as its line shows it.
#[derive(Clone, Copy)]
pub(crate) struct Row {
    pub(crate) address: usize,
    pub(crate) word: Word18,
    /// The line of the text in which it begins.
    pub(crate) line: u128,
    pub(crate) counts: WordCounts,
    pub(crate) is_hot: bool,
}

/// Adds the lines of an image's words, with its labels.
pub(crate) fn push_rows(
    alloc: Global,
    text: &mut String,
    counts: &Counts,
    node: Node,
    places: &[Place],
    before: usize,
    image: &Image,
) -> Result<(), AllocError>
    ensures { OnOk result (string_bytes text.new ≡ string_bytes text.old
        ++ rows_of counts.now.words.items node (map place_of places.now) before image.now) }
{
    let words = image.words();
    let found = items(alloc, words, image.code_len())?;
    let items = found.as_slice();
    let labels = image.labels();
    let most = most_heat(counts, node, items);
    for (address, word) in words.iter().enumerate() {
        push_labels(text, labels, address)?;
        let line = line_at(places, address, before);
        let item = &items[address];
        let row = row_at(
            &counts.word(node, address),
            most,
            line,
            address,
            *word,
            item,
        );
        push_row(text, alloc, labels, &row, item)?;
    }
    push_labels(text, labels, words.len())?;
    Ok(())
}

/// The row of a word in a line of the text, in a node with this most heat.
fn row_at(
    counts: &WordCounts,
    most: u64,
    line: u128,
    address: usize,
    word: Word18,
    item: &Item,
) -> Row
    ensures { result
        ≡ spec.row_by counts.now most line address word (item_view item.now) }
{
    Row {
        address,
        word,
        line,
        counts: *counts,
        is_hot: is_hot(heat(address, item, counts), most),
    }
}

/// The line in which the word at an address begins, with the lines before the text.
fn line_at(places: &[Place], address: usize, before: usize) -> u128
    ensures { result ≡ spec.line_at (map place_of places.now) address + before }
{
    let line = match places.get(address) {
        Some(place) => place.line,
        None => 1,
    };
    line as u128 + before as u128
}

/// Adds the line of a word.
#[tactic(auto, unfolding(crate::specs::Row::row_text))]
fn push_row(
    text: &mut String,
    alloc: Global,
    labels: &IndexMap<String, u8>,
    row: &Row,
    item: &Item,
) -> Result<(), AllocError>
    requires { row.now.address < 64 }
    ensures { OnOk result (string_bytes text.new ≡ string_bytes text.old
        ++ row_text (labels_of labels.now.entries) row.now (item_view item.now)) }
{
    push_counts(text, alloc, &row.counts, opcodes_in(item), row.is_hot)?;
    push_place(text, alloc, row.address, row.word, row.line)?;
    push_item(text, labels, row.address, item)
}

/// How many opcodes a word of code has.
fn opcodes_in(item: &Item) -> usize
    ensures { result ≡ opcodes_in (item_view item.now) }
{
    match item {
        Item::Code(packed) => packed.ops.len(),
        Item::Follower(_) | Item::Data(_) => 0,
    }
}

/// Adds the address of a word, the word, and its line.
#[tactic(auto, unfolding(crate::specs::Row::place_text))]
fn push_place(
    text: &mut String,
    alloc: Global,
    address: usize,
    word: Word18,
    line: u128,
) -> Result<(), AllocError>
    requires { address < 64 }
    ensures { OnOk result (string_bytes text.new
        ≡ string_bytes text.old ++ place_text address word line) }
{
    let number = Hex3::new(address as u16);
    write!(text, "  {number}  {word}")?;
    push_number(text, alloc, 7, line)?;
    text.push_str("  ")
}
