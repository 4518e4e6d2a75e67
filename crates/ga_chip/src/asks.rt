use crate::outcome::Outcome;
use ga_place::{CellId, Side};
use ga_word::Word18;

/// What a try of a node asks for. A side is that of the cell: the one at which the node shares the
/// cell with its neighbour, and not the one that the try names.
#[derive(Clone, Copy, Debug, PartialEq, Eq)]
pub enum Asks {
    /// A step of the node's own, also one that takes a word of its stream: it touches no cell.
    Own,
    /// To post this word at a side, in a cell.
    Post(Side, CellId, Word18),
    /// To take the word pending at a side, in a cell.
    Take(Side, CellId),
    /// To see that the word posted at a side, in a cell, was read.
    Check(Side, CellId),
    /// Nothing, since the outcome of the try is known: the node waits, is held, or is stopped.
    Nothing(Outcome),
}
