use ga_word::Word18;

/// The completion behind which another frame follows.
pub const MORE: u32 = 0x0AE;

/// A frame of a boot stream: words, their destination, and what follows them. (Frames are this
/// project's own: profile.)
#[derive(Debug, PartialEq, Eq, Drop)]
pub struct Frame {
    /// 000AE if another frame follows. Any other value, up to 3FF, ends the stream, and the node
    /// that reads it starts at that address.
    pub completion: Word18,
    /// The address to which the words go, up to 1FF: one of RAM, of io, or of one port.
    pub transfer: Word18,
    pub words: Vec<Word18>,
}
