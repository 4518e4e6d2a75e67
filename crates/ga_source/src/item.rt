ghost use Rattle.std.specs.Prelude.{◌≡◌};
ghost use Rattle.ga_pack.specs.Model.Source as words;
ghost use Rattle.ga_source.specs.Item.{item_of};

use crate::name::Name;
use arrayvec::ArrayVec;
use ga_word::{Op, Word18};

/// A number, or the name of a label of the node, which means its address.
#[derive(Clone, Copy, PartialEq, Eq)]
pub enum Value {
    /// As a destination below what its slot holds.
    Number(Word18),
    Label(Name),
}

/// A bracketed word with a destination.
#[derive(PartialEq, Eq, Drop)]
pub struct TransferWord {
    /// The opcodes before the one that takes the destination.
    pub ops: ArrayVec<Op, 4>,
    pub op: Op,
    pub dest: Value,
    /// The spare bits, if they are stated.
    pub spare: Option<u8>,
}

/// What a section is made of. (The texts are this project's own: profile.)
#[derive(PartialEq, Eq, Drop)]
pub enum Item {
    /// An opcode that takes no destination, and is neither `@p` nor `!p`.
    Instruction(Op),
    /// An opcode and its destination.
    Transfer { op: Op, dest: Value },
    /// A number: `@p`, with the number as its follower.
    Literal(Word18),
    /// A label, which names the next address.
    Label(Name),
    /// The next item begins a word.
    Align,
    /// A bracketed word without a destination: its opcodes.
    Word(ArrayVec<Op, 4>),
    /// A bracketed word with a destination.
    WordTo(Box<TransferWord>),
    /// A word behind `,`.
    Plain(Value),
    /// What follows is data.
    Data,
}

impl Item {
    /// Whether the item makes a word of its own: each does but a label, `align` and `data`.
    pub fn makes_word(&self) -> bool
        ensures { result ≡ words.makes_word (item_of self.now) }
    {
        !matches!(self, Item::Label(_) | Item::Align | Item::Data)
    }
}
