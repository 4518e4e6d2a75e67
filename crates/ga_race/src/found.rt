use ga_node::Place;
use ga_place::{Node, Side, Sides};
use ga_word::Word18;

/// When a node posted a word.
#[derive(Clone, Copy, Debug, PartialEq, Eq)]
pub struct Post {
    /// How many steps the node had made before.
    pub number: u64,
    /// The number of the turn, as in `Step`.
    pub turn: u64,
    /// The address of the word in execution: P before the node's last fetch.
    pub address: Option<u16>,
}

/// A word at a side of a node.
#[derive(Clone, Copy, Debug, PartialEq, Eq)]
pub struct SideWord {
    pub side: Side,
    pub word: Word18,
    /// The neighbour that wrote the word.
    pub writer: Node,
    /// When it posted the word; `None` if that was before the watch began.
    pub post: Option<Post>,
}

/// A multiport take: a node took a word at one of several sides.
#[derive(Clone, Copy, Debug, PartialEq, Eq)]
pub struct MultiportTake {
    pub reader: Node,
    /// How many steps the node had made before.
    pub number: u64,
    /// The number of the turn, as in `Step`.
    pub turn: u64,
    /// The sides at which the node reads.
    pub sides: Sides,
    /// The place of the node before the take, and P.
    pub place: Place,
    pub p: u16,
    /// The address of the word in execution: P before the node's last fetch.
    pub address: Option<u16>,
    pub taken: SideWord,
}

/// A race: a multiport take, and a word at another of its sides that could have come first.
#[derive(Clone, Copy, Debug, PartialEq, Eq)]
pub struct Race {
    pub take: MultiportTake,
    pub left_out: SideWord,
}
