use ga_pack::Packed;
use ga_word::Word18;

/// What a word of a node is.
#[derive(Debug, PartialEq, Eq, Drop)]
pub enum Item {
    /// A word that is code: its opcodes, the destination of the last one, and its spare bits.
    Code(Packed),
    /// A follower of a word before it: its `@p` or `!p` reads or writes this word.
    Follower(Word18),
    /// A word behind the code part.
    Data(Word18),
}
