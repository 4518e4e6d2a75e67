ghost use Rattle.std.specs.Prelude.{◌≡◌, ◌+◌, ◌^◌, ◌<◌, ◌≤◌, ◌++◌, ◌∷◌, [], length, true};
ghost use Rattle.std.specs.List.{list_any};
ghost use Rattle.ga_word.specs.Op.{ends_word};
ghost use Rattle.ga_pack.specs.Model.Layout as laid;
ghost use Rattle.ga_source.specs.Item.{item_of, value_of};
ghost use Rattle.ga_asm.specs.Image.{labels_of};

use arrayvec::ArrayVec;
use ga_pack::{dest_bound, is_followed, op_fits};
use ga_source::{Item, Value};
use ga_word::Op;
use indexmap::IndexMap;

/// The word that the next item may join: its address and the opcodes in its slots.
#[derive(Drop)]
pub(crate) struct OpenWord {
    address: usize,
    ops: ArrayVec<Op, 4>,
    /// One of its opcodes ends the word.
    is_ended: bool,
    ghost near: { address + 8 < 2 ^ 64 },
    ghost ended: { is_ended ≡ list_any ends_word ops.items },
}

impl OpenWord {
    /// A word at an address, with an opcode in slot 0.
    pub(crate) fn new(address: usize, op: Op) -> Self
        // P behind the word has an address
        requires { address + 8 < 2 ^ 64 }
        ensures address { result.address ≡ address }
        ensures ops { result.ops.items ≡ op ∷ [] }
    {
        let mut ops = ArrayVec::new();
        ops.push(op);
        OpenWord {
            address,
            ops,
            is_ended: op.ends_word(),
        }
    }

    /// An opcode takes the next slot.
    pub(crate) fn push(&mut self, op: Op)
        requires { length self.old.ops.items < 4 }
        ensures address { self.new.address ≡ self.old.address }
        ensures ops { self.new.ops.items ≡ self.old.ops.items ++ op ∷ [] }
    {
        self.is_ended = self.is_ended || op.ends_word();
        self.ops.push(op);
    }

    /// The item joins the word, with the labels before it.
    pub(crate) fn joins(&self, labels: &IndexMap<String, usize>, item: &Item) -> bool
        ensures room { result ≡ true → length self.now.ops.items < 4 }
        ensures test { result ≡ laid.joins (labels_of labels.now.entries) self.now.address
            self.now.ops.items (item_of item.now) }
    {
        !self.is_ended && self.fits(labels, item)
    }

    /// The item fits the slot behind the opcodes.
    #[tactic(auto, unfolding(ga_pack::specs::Model::Layout::fits))]
    fn fits(&self, labels: &IndexMap<String, usize>, item: &Item) -> bool
        ensures room { result ≡ true → length self.now.ops.items < 4 }
        ensures test { result ≡ laid.fits (labels_of labels.now.entries) self.now.address
            self.now.ops.items (item_of item.now) }
    {
        let slot = self.ops.len();
        match item {
            Item::Instruction(op) => op_fits(slot, *op) && (!is_unext(*op) || 0 < slot),
            Item::Transfer { dest, .. } => {
                let p = p_behind(self.address, self.ops.as_slice());
                may_reach(slot, p, value_among(labels, dest))
            }
            Item::Literal(_) => op_fits(slot, Op::FetchP),
            _ => false,
        }
    }
}

/// An `unext` runs its own word again.
fn is_unext(op: Op) -> bool
    ensures { result ≡ laid.is_unext op }
{
    matches!(op, Op::Micronext)
}

/// The address of a label, if it is among these.
pub(crate) fn address_of(labels: &IndexMap<String, usize>, name: &str) -> Option<usize>
    ensures { result ≡ laid.address_of (labels_of labels.now.entries) name.now }
{
    labels.get(name).copied()
}

/// A number, or the address of a label, if it is among these.
fn value_among(labels: &IndexMap<String, usize>, value: &Value) -> Option<usize>
    ensures { result ≡ laid.value_of (labels_of labels.now.entries) (value_of value.now) }
{
    match value {
        Value::Number(number) => Some(number.get() as usize),
        Value::Label(name) => address_of(labels, name.as_str()),
    }
}

/// P in the slot behind these opcodes of the word at an address.
fn p_behind(address: usize, ops: &[Op]) -> usize
    requires near { address + 8 < 2 ^ 64 }
    requires few { length ops.now ≤ 4 }
    ensures { result ≡ laid.p_behind address ops.now }
{
    let mut followed = 0;
    for op in ops {
        if is_followed(*op) {
            followed += 1;
        }
    }
    address + 1 + followed
}

/// A destination is in reach from a slot, where P is this. Labels that aren't defined yet are in
/// reach from slots 0 and 1.
fn may_reach(slot: usize, p: usize, dest: Option<usize>) -> bool
    ensures test { result ≡ laid.may_reach slot p dest }
    ensures room { result ≡ true → slot < 4 }
{
    match dest {
        Some(dest) => reaches(slot, p, dest),
        None => slot < 2,
    }
}

/// A destination that is known is in reach from a slot.
fn reaches(slot: usize, p: usize, dest: usize) -> bool
    ensures test { result ≡ laid.reaches slot p dest }
    ensures room { result ≡ true → slot < 4 }
{
    slot == 0 || slot == 1 && dest < usize::from(dest_bound(1)) || slot == 2 && dest / 8 == p / 8
}
