//! How many words the items of a node need, however many that are.
ghost use Rattle.std.specs.Prelude.{◌≡◌, ◌+◌, ◌*◌, ◌^◌, ◌<◌, ◌≤◌, IfOk, OnOk, Some, map, true};
ghost use Rattle.ga_pack.specs.Model.Layout as laid;
ghost use Rattle.ga_pack.specs.Model.LayoutFault as faults;
ghost use Rattle.ga_source.specs.Item.{item_of};
ghost use Rattle.ga_asm.specs.Image.{labels_of};
ghost use Rattle.ga_hints.specs.Size.{data_after, defined, joins_open, labels_with, open_after, size_in, size_of, size_text, unsized, with_item};
ghost use Rattle.ga_hints.specs.inner.Size.{HasRoom, open_of, sizing_of};

use crate::open_word::{OpenWord, address_of};
use ga_source::{Item, Name};
use ga_word::Op;
use indexmap::IndexMap;
use std::alloc::{AllocError, Global};
use std::fmt;

/// How many words the program of a node needs.
#[derive(Clone, Copy, Debug, PartialEq, Eq)]
pub struct Size {
    /// The words in front of the first `data`, or all if there is none.
    pub code: usize,
    /// The words behind it.
    pub data: usize,
}

/// Writes the words and how many of them a node has no room for, as
/// `it needs 71 words: 37 code, 34 data; 7 over`. (The memory of a node has 64 words: the F18A
/// reference, DB001.)
impl fmt::Display for Size {
    ghost output = { λ size. Some (size_text size) };

    fn fmt<W: fmt::Write>(&self, f: &mut fmt::Formatter<W>) -> fmt::Result {
        let code = self.code;
        let data = self.data;
        let words = code as u128 + data as u128;
        let over = words.saturating_sub(64);
        write!(
            f,
            "it needs {words} words: {code} code, {data} data; {over} over"
        )
    }
}

/// The size of the items of a node.
pub(crate) fn size_of(alloc: Global, items: &[Item]) -> Result<Size, AllocError>
    ensures { IfOk result (λ size. size ≡ size_of (map item_of items.now)) }
{
    let mut sizing = Sizing::new(alloc);
    for item in items {
        sizing.add(item)?;
    }
    Ok(sizing.size())
}

/// What is known of the items so far.
#[derive(Drop)]
struct Sizing {
    alloc: Global,
    /// The labels with their addresses.
    labels: IndexMap<String, usize>,
    /// The address of the next word.
    address: usize,
    /// The word that the next item may join.
    open_word: Option<OpenWord>,
    /// The address of the first `data`.
    data_start: Option<usize>,
}

impl Sizing {
    /// There is no item.
    fn new(alloc: Global) -> Self
        ensures { sizing_of result ≡ unsized }
    {
        Sizing {
            alloc,
            labels: IndexMap::new(alloc),
            address: 0,
            open_word: None,
            data_start: None,
        }
    }

    /// The size of the items so far.
    fn size(&self) -> Size
        ensures { result ≡ size_in (sizing_of self.now) }
    {
        let code = self.data_start.unwrap_or(self.address);
        Size {
            code,
            data: self.address.saturating_sub(code),
        }
    }

    /// One more item.
    fn add(&mut self, item: &Item) -> Result<(), AllocError>
        // the words of the item, and P behind a word of four slots, have addresses
        requires { self.old.address + 8 < 2 ^ 64 }
        ensures more { OnOk result (sizing_of self.new
            ≡ with_item (sizing_of self.old) (item_of item.now)) }
        ensures few { OnOk result (self.new.address ≤ self.old.address + 2) }
    {
        let joined = self.joins(item);
        let word = self.open_word.take();
        self.open_word = word_behind(word, joined, self.address, item);
        self.note(item)?;
        self.address += words_added(joined, item);
        Ok(())
    }

    /// The item joins the open word.
    fn joins(&self, item: &Item) -> bool
        ensures room { result ≡ true → HasRoom self.now.open_word }
        ensures test { result ≡ joins_open (labels_of self.now.labels.entries)
            (open_of self.now.open_word) (item_of item.now) }
    {
        match &self.open_word {
            Some(word) => word.joins(&self.labels, item),
            None => false,
        }
    }

    /// A label gets the next address, and the first `data` begins there.
    fn note(&mut self, item: &Item) -> Result<(), AllocError>
        ensures rest { self.new ≡ record self.old
            { labels = self.new.labels; data_start = self.new.data_start } }
        ensures labels { OnOk result (labels_of self.new.labels.entries
            ≡ labels_with (labels_of self.old.labels.entries) self.old.address (item_of item.now)) }
        ensures data { OnOk result (self.new.data_start
            ≡ data_after self.old.data_start self.old.address (item_of item.now)) }
    {
        match item {
            Item::Label(name) => self.define(name)?,
            Item::Data => {
                if self.data_start.is_none() {
                    self.data_start = Some(self.address);
                }
            }
            _ => {}
        }
        Ok(())
    }

    /// The label gets the next address, if it has none.
    fn define(&mut self, name: &Name) -> Result<(), AllocError>
        ensures rest { self.new ≡ record self.old { labels = self.new.labels } }
        ensures labels { OnOk result (labels_of self.new.labels.entries
            ≡ defined (labels_of self.old.labels.entries) self.old.address name.now.bytes) }
    {
        if address_of(&self.labels, name.as_str()).is_none() {
            let name = String::from_str(self.alloc, name.as_str())?;
            self.labels.insert(name, self.address)?;
        }
        Ok(())
    }
}

/// The open word behind an item at an address, which joins it, or begins one, or neither.
fn word_behind(
    word: Option<OpenWord>,
    joined: bool,
    address: usize,
    item: &Item,
) -> Option<OpenWord>
    requires room { joined ≡ true → HasRoom word }
    requires near { address + 8 < 2 ^ 64 }
    ensures { open_of result ≡ open_after joined (open_of word) address (item_of item.now) }
{
    if joined {
        let mut word = word?;
        word.push(op_of(item));
        return Some(word);
    }
    if is_loose(item) {
        Some(OpenWord::new(address, op_of(item)))
    } else {
        None
    }
}

/// An item outside brackets is one opcode.
fn is_loose(item: &Item) -> bool
    ensures { result ≡ laid.is_loose (item_of item.now) }
{
    matches!(
        item,
        Item::Instruction(_) | Item::Transfer { .. } | Item::Literal(_)
    )
}

/// That opcode.
fn op_of(item: &Item) -> Op
    ensures { result ≡ laid.op_of (item_of item.now) }
{
    match item {
        Item::Instruction(op) | Item::Transfer { op, .. } => *op,
        _ => Op::FetchP,
    }
}

/// How many words the item adds: one of its own if it joins none, and one for a number.
fn words_added(joined: bool, item: &Item) -> usize
    ensures count { result ≡ faults.words_added joined (item_of item.now) }
    ensures few { result ≤ 2 }
{
    let own = if joined || !item.makes_word() { 0 } else { 1 };
    let follower = if let Item::Literal(_) = item { 1 } else { 0 };
    own + follower
}
