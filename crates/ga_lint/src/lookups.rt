//! What the rules look up in a node.
ghost use Rattle.std.specs.Prelude.{◌≡◌, ◌<◌, ◌≤◌, drop, length, map, suc, take};
ghost use Rattle.std.specs.List.{position_from};
ghost use Rattle.ga_disasm.specs.Disassembling.{item_view};
ghost use Rattle.ga_list.specs.Reading as reading;
ghost use Rattle.ga_lint.specs.NodeView as spec;
ghost use Rattle.ga_lint.specs.inner.NodeText.{node_of};
ghost use Rattle.ga_pack.specs.Model.Layout as model;
ghost use Rattle.ga_pack.specs.Model.Program.{place_at};
ghost use Rattle.ga_source.specs.Item.{item_of};
ghost use Rattle.ga_source.specs.Token.{place_of};

use crate::node_text::NodeText;
use ga_asm::p_behind;
use ga_disasm::Item as Word;
use ga_pack::{Packed, dest_bound};
use ga_place::{Where, locate};
use ga_source::{Item, ItemPlace, Place};

impl<'a> NodeText<'a> {
    /// The place at which the word at an address begins.
    pub(crate) fn word_place(&self, address: usize) -> Place
        ensures { place_of result ≡ place_at (node_of self.now).word_places address }
    {
        match self.word_places.get(address) {
            Some(place) => *place,
            None => Place { line: 1, column: 1 },
        }
    }

    /// The place of an item.
    pub(crate) fn item_place(&self, index: usize) -> Place
        ensures { place_of result ≡ place_at (node_of self.now).item_places index }
    {
        match self.item_places.get(index) {
            Some(found) => found.place,
            None => Place { line: 1, column: 1 },
        }
    }

    /// Whether the word at an address was laid by packing: it begins with an item outside brackets.
    pub(crate) fn is_packed(&self, address: usize) -> bool
        ensures { result ≡ spec.is_packed (node_of self.now) address }
    {
        match self.first_item(address) {
            Some(index) => self.is_loose_at(index),
            None => false,
        }
    }

    /// The index of the item with which the word at an address begins.
    pub(crate) fn first_item(&self, address: usize) -> Option<usize>
        ensures { result ≡ spec.first_item (node_of self.now) address }
    {
        index_of(self.item_places, self.word_place(address))
    }

    /// Whether an item stands outside brackets.
    pub(crate) fn is_loose_at(&self, index: usize) -> bool
        ensures { result ≡ spec.is_loose_at (node_of self.now).items index }
    {
        match self.items.get(index) {
            Some(item) => is_loose(item),
            None => false,
        }
    }

    /// The words before an address.
    pub(crate) fn words_before(&self, address: usize) -> &[Word]
        ensures { map item_view result.now ≡ take address (node_of self.now).words }
    {
        front(self.words, address)
    }

    /// The words from an address on.
    pub(crate) fn words_from(&self, address: usize) -> &[Word]
        ensures { map item_view result.now ≡ drop address (node_of self.now).words }
    {
        rest(self.words, address)
    }

    /// The address that the destination of the word at an address means, if it has one.
    pub(crate) fn dest_at(&self, address: usize) -> Option<u32>
        ensures { result ≡ spec.dest_at (node_of self.now) address }
    {
        match self.words.get(address) {
            Some(word) => dest_in(address, word),
            None => None,
        }
    }
}

/// The address that the destination of a word at an address means, if it has one.
pub(crate) fn dest_in(address: usize, word: &Word) -> Option<u32>
    requires { address < 64 }
    ensures { result ≡ spec.dest_in address (item_view word.now) }
{
    match word {
        Word::Code(packed) => match packed.dest {
            Some(dest) => Some(target(address, packed, dest)),
            None => None,
        },
        _ => None,
    }
}

/// What an address reaches, by its low nine bits.
pub(crate) fn land(address: u32) -> Where
    ensures { result ≡ spec.lands address }
{
    locate((address % 0x200) as u16)
}

/// Whether a word of ROM can be run, by its index: only that at 0A9 can, `warm` of source text.
pub(crate) fn is_warm(at: u8) -> bool
    ensures { result ≡ spec.is_warm at }
{
    at == 0x29
}

/// The address that a destination of the word at an address means: it replaces the low bits of P.
fn target(address: usize, packed: &Packed, dest: u16) -> u32
    requires { address < 64 }
    ensures { result ≡ reading.target address packed.now.ops.items dest }
{
    let bound = u32::from(dest_bound(packed.ops.len().saturating_sub(1)));
    let p = u32::from(p_behind(address as u8, packed.ops.as_slice()));
    p / bound * bound + u32::from(dest)
}

/// The index of the item at a place.
fn index_of(places: &[ItemPlace], place: Place) -> Option<usize>
    ensures { result ≡ position_from (spec.is_at (place_of place)) 0
        (map (λ found. place_of found.place) places.now) }
{
    for (index, found) in places.iter().enumerate() {
        if is_at(place, found.place) {
            return Some(index);
        }
    }
    None
}

fn is_at(place: Place, other: Place) -> bool
    ensures { result ≡ spec.is_at (place_of place) (place_of other) }
{
    other.line == place.line && other.column == place.column
}

/// Whether an item stands outside brackets, and is an opcode in a slot of a word.
fn is_loose(item: &Item) -> bool
    ensures { result ≡ model.is_loose (item_of item.now) }
{
    matches!(
        item,
        Item::Instruction(_) | Item::Transfer { .. } | Item::Literal(_)
    )
}

/// The first words, or all if there are fewer.
fn front(words: &[Word], count: usize) -> &[Word]
    ensures { result.now ≡ take count words.now }
{
    words.split_at(words.len().min(count)).0
}

/// The words behind the first ones.
fn rest(words: &[Word], count: usize) -> &[Word]
    ensures { result.now ≡ drop count words.now }
{
    words.split_at(words.len().min(count)).1
}
