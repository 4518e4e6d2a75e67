use ga_word::Word18;

/// A boot stream, in its two parts, for the first node of a route or of a tree: all loads come
/// before all starts.
#[derive(Debug, PartialEq, Eq, Drop)]
pub struct Boot {
    /// Frames that load the memory of each node.
    pub load: Vec<Word18>,
    /// Frames that start the nodes, each node before the one above it.
    pub start: Vec<Word18>,
}

/// The two parts of a boot stream.
#[derive(Clone, Copy)]
pub enum Part {
    /// The words that fill each node's memory.
    Load,
    /// The words that start each node.
    Start,
}
