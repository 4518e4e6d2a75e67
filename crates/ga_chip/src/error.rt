use thiserror::Error;

/// Why a chip refuses a call. It is left as it was.
#[derive(Clone, Copy, Debug, PartialEq, Eq, Error)]
pub enum ChipError {
    /// The node isn't at an edge of the chip, so it can't be given a stream.
    #[error("NotEdge")]
    NotEdge,
    /// The node was given a stream before, or one was opened for it.
    #[error("AlreadyGiven")]
    AlreadyGiven,
    /// The node has made a step.
    #[error("Begun")]
    Begun,
    /// The node's stream wasn't opened, so it can't be fed.
    #[error("NotOpen")]
    NotOpen,
    /// Words of the last piece of the node's stream are left, so it can't be fed another.
    #[error("NotTaken")]
    NotTaken,
    /// A try of the node wouldn't be held at a breakpoint, so it can't be given a pass.
    #[error("NotHeld")]
    NotHeld,
}
