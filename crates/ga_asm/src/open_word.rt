ghost use Rattle.std.specs.Prelude.{◌≡◌, ◌<◌, ◌≤◌, ◌++◌, ◌∷◌, [], length, true};
ghost use Rattle.std.specs.List.{list_any};
ghost use Rattle.ga_word.specs.Op.{ends_word};
ghost use Rattle.ga_pack.specs.Model.Layout as laid;
ghost use Rattle.ga_source.specs.Item.{item_of};
ghost use Rattle.ga_asm.specs.Image.{labels_of};

use crate::items::is_unext;
use crate::reach::{may_reach, p_behind, value_among};
use arrayvec::ArrayVec;
use ga_pack::op_fits;
use ga_source::Item;
use ga_word::Op;
use indexmap::IndexMap;

/// The word that the next item may join: its address and the opcodes in its slots.
#[derive(Drop)]
pub(crate) struct OpenWord {
    address: u8,
    ops: ArrayVec<Op, 4>,
    // One of its opcodes ends the word.
    is_ended: bool,
    ghost near: { address ≤ 64 },
    ghost ended: { is_ended ≡ list_any ends_word ops.items },
}

impl OpenWord {
    /// A word at an address, with an opcode in slot 0.
    pub(crate) fn new(address: u8, op: Op) -> Self
        requires { address ≤ 64 }
        ensures address { result.address ≡ address }
        ensures ops { result.ops.items ≡ op ∷ [] }
    {
        let mut ops = ArrayVec::new();
        ops.push(op);
        OpenWord {
            address,
            ops,
            is_ended: op.ends_word(),
        }
    }

    pub(crate) fn len(&self) -> usize
        ensures { result ≡ length self.now.ops.items }
    {
        self.ops.len()
    }

    /// An opcode takes the next slot.
    pub(crate) fn push(&mut self, op: Op)
        requires { length self.old.ops.items < 4 }
        ensures address { self.new.address ≡ self.old.address }
        ensures ops { self.new.ops.items ≡ self.old.ops.items ++ op ∷ [] }
    {
        self.is_ended = self.is_ended || op.ends_word();
        self.ops.push(op);
    }

    // The item fits the slot behind the opcodes.
    #[tactic(auto, unfolding(ga_pack::specs::Model::Layout::fits))]
    fn fits(&self, labels: &IndexMap<String, u8>, item: &Item) -> bool
        ensures room { result ≡ true → length self.now.ops.items < 4 }
        ensures test { result ≡ laid.fits (labels_of labels.now.entries) self.now.address
            self.now.ops.items (item_of item.now) }
    {
        let slot = self.ops.len();
        match item {
            Item::Instruction(op) => op_fits(slot, *op) && (!is_unext(*op) || 0 < slot),
            Item::Transfer { dest, .. } => {
                let p = p_behind(self.address, self.ops.as_slice());
                may_reach(slot, p, value_among(labels, dest))
            }
            Item::Literal(_) => op_fits(slot, Op::FetchP),
            _ => false,
        }
    }

    /// The item joins the word, with the labels before it.
    pub(crate) fn joins(&self, labels: &IndexMap<String, u8>, item: &Item) -> bool
        ensures room { result ≡ true → length self.now.ops.items < 4 }
        ensures test { result ≡ laid.joins (labels_of labels.now.entries) self.now.address
            self.now.ops.items (item_of item.now) }
    {
        !self.is_ended && self.fits(labels, item)
    }
}
