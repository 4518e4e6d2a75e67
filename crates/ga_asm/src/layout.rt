//! The first pass over the items of a node: the layout of each, or the first fault.
ghost use Rattle.std.specs.Prelude.{◌≡◌, ◌≢◌, ◌+◌, ◌<◌, ◌≤◌, ◌++◌, ◌∷◌, [], IfErr, IfOk, IfSome, None, OnOk, Some, false, length, map, true};
ghost use Rattle.std.proofs.Props.{props};
ghost use Rattle.ga_pack.specs.Model.Layout as laid;
ghost use Rattle.ga_pack.specs.Model.Layout.{names_in};
ghost use Rattle.ga_pack.specs.Model.LayoutFault as faults;
ghost use Rattle.ga_pack.specs.Model.Source.{Items, start};
ghost use Rattle.ga_pack.specs.Model.Source as words;
ghost use Rattle.std.specs.Option.{option_map};
ghost use Rattle.ga_source.specs.Item.{item_of, value_of};
ghost use Rattle.ga_asm.specs.Image.{labels_of};
ghost use Rattle.ga_asm.specs.inner.Layout.{AreAmong, AreSameNames, HasRoom, IsBlank, Refuses, counts_after, data_after, joins_word, Placing, labels_with, names_of, open_after, open_count, open_of, plain, plain_names};
ghost use Rattle.ga_pack.specs.declared.error_kind.AsmErrorKind.TheVariants.{Memory};

use crate::items::{is_loose, is_unext, op_of, words_added};
use crate::open_word::OpenWord;
use crate::reach::{address_of, word_reaches};
use ga_pack::AsmErrorKind;
use ga_source::{Item, Name, Value};
use ga_word::Op;
use indexmap::{IndexMap, IndexSet};
use std::alloc::{AllocError, Global};

// What is kept of the items that are laid.
#[derive(Drop)]
pub(crate) struct Layout {
    alloc: Global,
    // The labels with their addresses.
    pub(crate) labels: IndexMap<String, u8>,
    // The next address.
    pub(crate) address: u8,
    // The word that the next item may join.
    open_word: Option<OpenWord>,
    // How many items each group has: the items of a word outside brackets are one, and any other
    // item is one by itself. The word that is open comes when it is closed.
    pub(crate) counts: Vec<usize>,
    // The address of the first `data`.
    pub(crate) data_start: Option<u8>,
}

// Why the items of a node were refused, and how many items are before the one with the fault.
#[derive(Clone, Copy)]
pub(crate) struct Refusal {
    pub(crate) at: usize,
    pub(crate) kind: AsmErrorKind,
}

// The names of the labels of a node. A set of them is made only when a name is asked for that isn't
// laid yet, which is rare: most jumps go back.
#[derive(Drop)]
pub(crate) struct Names<'a> {
    alloc: Global,
    labels: &'a [Name],
    set: Option<IndexSet<Name>>,
    ghost same: { IfSome set (λ set. AreSameNames (plain_names set.keys)
        (plain_names labels.now)) } by { Prim.hlevel props },
}

impl<'a> Names<'a> {
    pub(crate) fn new(alloc: Global, labels: &'a [Name]) -> Self
        ensures { result.labels.now ≡ labels.now }
    {
        Names {
            alloc,
            labels,
            set: None,
        }
    }

    // The set, which is taken out.
    fn take_set(&mut self) -> Result<IndexSet<Name>, AsmErrorKind>
        ensures labels { self.new.labels.now ≡ self.old.labels.now }
        ensures ok { IfOk result (λ set. AreSameNames (plain_names set.keys)
            (plain_names self.old.labels.now)) }
        ensures err { IfErr result (λ kind. kind ≡ Memory) }
    {
        match self.set.take() {
            Some(set) => Ok(set),
            None => set_of(self.alloc, self.labels),
        }
    }

    // The name is one of these.
    #[inline(never)]
    fn contains(&mut self, name: &Name) -> Result<bool, AsmErrorKind>
        ensures labels { self.new.labels.now ≡ self.old.labels.now }
        ensures ok { IfOk result (λ found. found ≡ words.is_among name.now.bytes
            (plain_names self.old.labels.now)) }
        ensures err { IfErr result (λ kind. kind ≡ Memory) }
    {
        let set = self.take_set()?;
        let found = set.contains(name);
        self.set = Some(set);
        Ok(found)
    }
}

// The set of these names.
fn set_of(alloc: Global, labels: &[Name]) -> Result<IndexSet<Name>, AsmErrorKind>
    ensures ok { IfOk result (λ set. AreSameNames (plain_names set.keys) (plain_names labels.now)) }
    ensures err { IfErr result (λ kind. kind ≡ Memory) }
{
    let mut set = IndexSet::with_capacity(alloc, labels.len())?;
    for label in labels {
        set.insert(*label)?;
    }
    Ok(set)
}

impl Layout {
    // The item joins the open word.
    fn joins(&self, item: &Item) -> bool
        ensures room { result ≡ true → HasRoom self.now.open_word }
        ensures test { result ≡ joins_word self.now (item_of item.now) }
    {
        match &self.open_word {
            Some(word) => word.joins(&self.labels, item),
            None => false,
        }
    }

    // The value is a number or a label, which is laid or not yet.
    fn is_value(&self, names: &mut Names<'_>, value: &Value) -> Result<bool, AsmErrorKind>
        requires laid { AreAmong (names_of (labels_of self.now.labels.entries))
            (plain_names names.old.labels.now) }
        ensures labels { names.new.labels.now ≡ names.old.labels.now }
        ensures ok { IfOk result (λ found. found ≡ laid.is_value (plain_names names.old.labels.now)
            (value_of value.now)) }
        ensures err { IfErr result (λ kind. kind ≡ Memory) }
    {
        match value {
            Value::Number(_) => Ok(true),
            Value::Label(name) => {
                Ok(address_of(&self.labels, name.as_str()).is_some() || names.contains(name)?)
            }
        }
    }

    // Refuses the item, which joins the open word or not, for its first fault in a node with these
    // labels.
    fn judge(&self, names: &mut Names<'_>, item: &Item, joined: bool) -> Result<(), AsmErrorKind>
        requires joined { joined ≡ joins_word self.now (item_of item.now) }
        requires few { self.now.address ≤ 64 }
        requires laid { AreAmong (names_of (labels_of self.now.labels.entries))
            (plain_names names.old.labels.now) }
        ensures labels { names.new.labels.now ≡ names.old.labels.now }
        ensures told { Refuses (faults.fault_at (plain_names names.old.labels.now)
            (labels_of self.now.labels.entries) self.now.address
            (joins_word self.now (item_of item.now)) (item_of item.now)) result }
    {
        match item {
            Item::Instruction(op) if !joined && is_unext(*op) => {
                return Err(AsmErrorKind::UnextAlone);
            }
            Item::Transfer { dest, .. } | Item::Plain(dest) => {
                if !self.is_value(names, dest)? {
                    return Err(AsmErrorKind::UndefinedLabel);
                }
            }
            Item::WordTo(word) => {
                if !self.is_value(names, &word.dest)? {
                    return Err(AsmErrorKind::UndefinedLabel);
                }
                if !word_reaches(&self.labels, self.address, word) {
                    return Err(AsmErrorKind::OutOfReach);
                }
            }
            _ => {}
        }
        if self.address + words_added(joined, item) > 64 {
            return Err(AsmErrorKind::TooLong);
        }
        Ok(())
    }

    // Nothing is laid, and there is room for these numbers of labels and counts.
    fn new(alloc: Global, labels: usize, counts: usize) -> Result<Self, AllocError>
        ensures { IfOk result IsBlank }
    {
        Ok(Layout {
            alloc,
            labels: IndexMap::with_capacity(alloc, labels)?,
            address: 0,
            open_word: None,
            counts: Vec::with_capacity(alloc, counts)?,
            data_start: None,
        })
    }

    // A word that is open is closed.
    fn close(&mut self) -> Result<(), AsmErrorKind>
        ensures ok { OnOk result (self.new ≡ record self.old
            { open_word = None; counts = self.new.counts }) }
        ensures counts { OnOk result (self.new.counts.items ≡ self.old.counts.items
            ++ open_count (open_of self.old)) }
        ensures err { IfErr result (λ kind. kind ≡ Memory) }
    {
        if let Some(word) = &self.open_word {
            self.counts.push(word.len())?;
        }
        self.open_word = None;
        Ok(())
    }

    // An opcode joins the word that is open.
    fn join(&mut self, op: Op)
        requires { HasRoom self.old.open_word }
        ensures rest { self.new ≡ record self.old { open_word = self.new.open_word } }
        ensures word { open_of self.new ≡ option_map (λ word. (word.0, word.1 ++ op ∷ []))
            (open_of self.old) }
    {
        if let Some(word) = &mut self.open_word {
            word.push(op);
        }
    }

    // A label gets the next address, and the first `data` begins there.
    fn note(&mut self, item: &Item) -> Result<(), AsmErrorKind>
        requires { words.is_new (item_of item.now) (names_of (labels_of self.old.labels.entries))
            ≡ true }
        ensures ok { OnOk result (self.new ≡ record self.old
            { labels = self.new.labels; data_start = self.new.data_start }) }
        ensures labels { OnOk result (labels_of self.new.labels.entries
            ≡ labels_with (labels_of self.old.labels.entries) self.old.address (item_of item.now)) }
        ensures data { OnOk result (self.new.data_start
            ≡ data_after self.old.data_start self.old.address (item_of item.now)) }
        ensures err { IfErr result (λ kind. kind ≡ Memory) }
    {
        match item {
            Item::Label(name) => {
                let name = String::from_str(self.alloc, name.as_str())?;
                self.labels.insert(name, self.address)?;
            }
            Item::Data => {
                if self.data_start.is_none() {
                    self.data_start = Some(self.address);
                }
            }
            _ => {}
        }
        Ok(())
    }

    // Lays one item more, which joins the open word or not.
    #[tactic(auto, using(crate::proofs::Loose::joins_loose, crate::proofs::Loose::loose_labels, crate::proofs::Loose::loose_data))]
    fn add(&mut self, item: &Item, joined: bool) -> Result<(), AsmErrorKind>
        requires joined { joined ≡ joins_word self.old (item_of item.now) }
        requires room { joined ≡ true → HasRoom self.old.open_word }
        requires few { self.old.address ≤ 64 }
        requires new { words.is_new (item_of item.now) (names_of
            (labels_of self.old.labels.entries)) ≡ true }
        ensures labels { OnOk result (labels_of self.new.labels.entries
            ≡ labels_with (labels_of self.old.labels.entries) self.old.address (item_of item.now)) }
        ensures address { OnOk result (self.new.address
            ≡ self.old.address + faults.words_added (joins_word self.old (item_of item.now))
            (item_of item.now)) }
        ensures word { OnOk result (open_of self.new ≡ open_after
            (joins_word self.old (item_of item.now)) (open_of self.old) self.old.address
            (item_of item.now)) }
        ensures counts { OnOk result (self.new.counts.items
            ≡ counts_after (joins_word self.old (item_of item.now)) (open_of self.old)
            self.old.counts.items (item_of item.now)) }
        ensures data { OnOk result (self.new.data_start
            ≡ data_after self.old.data_start self.old.address (item_of item.now)) }
        ensures err { IfErr result (λ kind. kind ≡ Memory) }
    {
        let added = words_added(joined, item);
        if joined {
            self.join(op_of(item));
            self.address += added;
            return Ok(());
        }
        self.close()?;
        if is_loose(item) {
            self.open_word = Some(OpenWord::new(self.address, op_of(item)));
            self.address += added;
            return Ok(());
        }
        self.counts.push(1)?;
        self.note(item)?;
        self.address += added;
        Ok(())
    }
}

/// The layout of the items of a node, or the first fault of the first pass. The labels are all
/// those of the node.
pub(crate) fn first_pass(alloc: Global, labels: &[Name], items: &[Item]) -> Result<Layout, Refusal>
    requires right { Items start (plain items.now) }
    requires names { plain_names labels.now ≡ names_in (plain items.now) }
    ensures ok { IfOk result (λ layout. Placing (plain items.now) layout) }
    ensures err { IfErr result (λ refusal. refusal.kind ≢ Memory
        → faults.FirstPassFault (plain items.now) refusal.at refusal.kind) }
    ensures at { IfErr result (λ refusal. refusal.at < length items.now) }
{
    let mut layout = match Layout::new(alloc, labels.len(), items.len()) {
        Ok(layout) => layout,
        Err(_) => {
            let kind = AsmErrorKind::Memory;
            return Err(Refusal { at: 0, kind });
        }
    };
    let mut names = Names::new(alloc, labels);
    for (at, item) in items.iter().enumerate() {
        let joined = layout.joins(item);
        if let Err(kind) = layout.judge(&mut names, item, joined) {
            return Err(Refusal { at, kind });
        }
        if let Err(kind) = layout.add(item, joined) {
            return Err(Refusal { at, kind });
        }
    }
    match layout.close() {
        Ok(()) => Ok(layout),
        Err(kind) => Err(Refusal { at: 0, kind }),
    }
}
