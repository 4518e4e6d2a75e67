//! The lines of a node's words.
ghost use Rattle.std.specs.Prelude.{◌≡◌, ◌<◌, ◌++◌, OnOk, length, map, string_bytes};
ghost use Rattle.std.specs.Str.{chars};
ghost use Rattle.ga_asm.specs.Image.{labels_of};
ghost use Rattle.ga_disasm.specs.Disassembling.{item_view};
ghost use Rattle.ga_list.specs.Row as spec;
ghost use Rattle.ga_list.specs.Row.{item_text, label_lines, mark_text, row_text, rows_of};
ghost use Rattle.ga_pack.specs.Model.Program as model;
ghost use Rattle.ga_source.specs.Token.{place_of};

use crate::line_names::LineNames;
use crate::reading::push_reading;
use ga_asm::Image;
use ga_disasm::{Item, items};
use ga_source::Place;
use ga_word::{Hex3, Word18};
use indexmap::IndexMap;
use std::alloc::{AllocError, Global};
use std::fmt::Write;

/// Adds the lines of an image's words, which begin at these places of the text, with its labels.
pub(crate) fn push_rows<N: LineNames>(
    alloc: Global,
    text: &mut String,
    image: &Image,
    places: &[Place],
    names: &N,
) -> Result<(), AllocError>
    ensures { OnOk result (string_bytes text.new ≡ string_bytes text.old
        ++ rows_of (N.names names.now) image.now (map place_of places.now)) }
{
    let words = image.words();
    let found = items(alloc, words, image.code_len())?;
    let items = found.as_slice();
    let labels = image.labels();
    for (address, word) in words.iter().enumerate() {
        push_labels(text, labels, address)?;
        let line_name = names.name(alloc, place_at(places, address))?;
        push_row(
            text,
            labels,
            address,
            *word,
            &items[address],
            line_name.as_str(),
        )?;
    }
    push_labels(text, labels, words.len())?;
    Ok(())
}

/// Adds a line for each label that has this address.
pub fn push_labels(
    text: &mut String,
    labels: &IndexMap<String, u8>,
    address: usize,
) -> Result<(), AllocError>
    ensures { OnOk result (string_bytes text.new ≡ string_bytes text.old
        ++ label_lines (labels_of labels.now.entries) address) }
{
    for (name, at) in labels {
        if usize::from(*at) == address {
            writeln!(text, "{name}:")?;
        }
    }
    Ok(())
}

/// Adds the line of a word at an address, which is this item and begins in the line of this name.
fn push_row(
    text: &mut String,
    labels: &IndexMap<String, u8>,
    address: usize,
    word: Word18,
    item: &Item,
    line_name: &str,
) -> Result<(), AllocError>
    requires { address < 64 }
    ensures { OnOk result (string_bytes text.new ≡ string_bytes text.old
        ++ row_text (labels_of labels.now.entries) address word (item_view item.now)
        line_name.now) }
{
    let number = Hex3::new(address as u16);
    let (mark, blanks) = (mark(item), blanks_before(line_name));
    write!(text, "{number}  {word}  {mark} {blanks}{line_name}  ")?;
    push_reading(text, labels, address, item)?;
    Ok(())
}

/// Adds what kind of word an item at an address is, in eight columns, and what it reads as, with
/// labels for destinations, and the line's end. (The text is this project's own: profile.)
pub fn push_item(
    text: &mut String,
    labels: &IndexMap<String, u8>,
    address: usize,
    item: &Item,
) -> Result<(), AllocError>
    requires { address < 64 }
    ensures { OnOk result (string_bytes text.new ≡ string_bytes text.old
        ++ item_text (labels_of labels.now.entries) address (item_view item.now)) }
{
    write!(text, "{}  ", mark(item))?;
    push_reading(text, labels, address, item)?;
    Ok(())
}

/// The place of the text in which the word at an address begins.
fn place_at(places: &[Place], address: usize) -> Place
    ensures { place_of result ≡ model.place_at (map place_of places.now) address }
{
    match places.get(address) {
        Some(place) => *place,
        None => Place { line: 1, column: 1 },
    }
}

/// What kind of word an item is, in eight columns.
fn mark(item: &Item) -> &'static str
    ensures { result.now ≡ mark_text (item_view item.now) }
{
    match item {
        Item::Code(_) => "code    ",
        Item::Follower(_) => "follower",
        Item::Data(_) => "data    ",
    }
}

/// The blanks before a text, if it has fewer than five characters.
#[tactic(auto, unfolding(crate::specs::Row::blanks_before))]
fn blanks_before(shown: &str) -> &'static str
    ensures { result.now ≡ spec.blanks_before shown.now }
{
    match width(shown) {
        0 => "     ",
        1 => "    ",
        2 => "   ",
        3 => "  ",
        4 => " ",
        _ => "",
    }
}

/// How many characters a text has.
fn width(shown: &str) -> usize
    ensures { result ≡ length (chars shown.now) }
{
    shown.chars().count()
}
