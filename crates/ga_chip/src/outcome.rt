ghost use Rattle.std.specs.Prelude.{◌≡◌};
ghost use Rattle.ga_chip.specs.Run.{side_of_turn};
ghost use Rattle.ga_chip.specs.Outcome.{moved_by};

use ga_place::{Node, SIDES, Side};

/// One try of one node. Only a multiport read uses the side: it looks at this side and no other.
#[derive(Clone, Copy, Debug, PartialEq, Eq)]
pub struct Try {
    pub node: Node,
    pub side: Side,
}

/// The outcome of a try.
#[derive(Clone, Copy, Debug, PartialEq, Eq)]
pub enum Outcome {
    /// The node made a step.
    Moved,
    /// The node waits: for a word, or for its own word to be read.
    Waits,
    /// The node is about to fetch at a breakpoint, without a pass.
    Held,
    /// The node makes no step any more.
    Stopped,
}

impl Outcome {
    /// How many steps the try made: one if it was `Moved`, else none.
    pub fn moves(self) -> u8
        ensures { result ≡ moved_by self }
    {
        match self {
            Outcome::Moved => 1,
            _ => 0,
        }
    }
}

/// The side that the tries of a turn name, by the turn's number, counted from 0: right, down, left,
/// up, and again. (The order is this project's own: profile.)
pub fn side_of_turn(turn: u64) -> Side
    ensures { result ≡ side_of_turn turn }
{
    SIDES[(turn % 4) as usize]
}
