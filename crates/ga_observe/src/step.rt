ghost use Rattle.std.specs.Prelude.{◌≡◌};
ghost use Rattle.std.specs.List.{slice_get};
ghost use Rattle.std.specs.Option.{unwrap_or};
ghost use Rattle.ga_word.specs.declared.op.Op.TheVariants.{Nop};
ghost use Rattle.ga_pack.specs.Decoded.{reading_of};

use ga_node::Place;
use ga_pack::decode;
use ga_place::{Node, Side, Sides};
use ga_word::{Op, Word18};

/// What a node did by a step.
#[derive(Clone, Copy, Debug, PartialEq, Eq)]
pub enum Deed {
    /// Its own work: it touched no cell, and took no word of its stream.
    Own,
    /// It posted this word at this side.
    Posted(Side, Word18),
    /// It took this word at this side. `of` has the sides at which it reads: this one alone, or
    /// several, and then the try named this one.
    Took { side: Side, of: Sides, word: Word18 },
    /// It saw that the word that it had posted at this side was read.
    SawRead(Side),
    /// Its loader took this word, the next one of its stream.
    TookInput(Word18),
}

/// A step that a node made, and where the node stood before it.
#[derive(Clone, Copy, Debug, PartialEq, Eq)]
pub struct Step {
    pub node: Node,
    /// How many steps the node had made before.
    pub number: u64,
    /// The number of the turn or, in a list of tries, the index of the try; both counted from 0.
    pub turn: u64,
    /// Before a slot of the word in execution or before a fetch; or the place of the loader.
    pub place: Place,
    /// The address register P, ten bits.
    pub p: u16,
    /// The word in execution.
    pub word: Word18,
    pub deed: Deed,
}

impl Step {
    ghost use Rattle.ga_observe.specs.Step.{op_run};

    /// The opcode that the node ran, by the reading of the word in execution: `.` if the word has
    /// no such slot. `None` for a fetch and for a step of the loader.
    pub fn op(&self) -> Option<Op>
        ensures { result ≡ op_run self.now.place self.now.word }
    {
        match self.place {
            Place::Slot0 => Some(op_in(self.word, 0)),
            Place::Slot1 => Some(op_in(self.word, 1)),
            Place::Slot2 => Some(op_in(self.word, 2)),
            Place::Slot3 => Some(op_in(self.word, 3)),
            _ => None,
        }
    }
}

/// The opcode of a word in a slot, or `.` if the word has no such slot.
fn op_in(word: Word18, slot: usize) -> Op
    ensures { result ≡ unwrap_or (slice_get (reading_of word).ops slot) Nop }
{
    decode(word)
        .ops
        .as_slice()
        .get(slot)
        .copied()
        .unwrap_or(Op::Nop)
}
