use arrayvec::ArrayVec;
use ga_word::Op;

/// The instructions of one word.
#[derive(Debug, PartialEq, Eq, Drop)]
pub struct Packed {
    /// The opcodes in the order in which they are run: four, or fewer if the last one takes a
    /// destination.
    pub ops: ArrayVec<Op, 4>,
    /// The destination of the last opcode, if it takes one: 10 bits behind slot 0, 8 bits behind
    /// slot 1, 3 bits behind slot 2.
    pub dest: Option<u16>,
    /// Bits 12..10 of a word whose slot 0 takes a destination, else 0. They are ignored when the
    /// word is run.
    pub spare: u8,
}
