ghost use Rattle.std.specs.Prelude.{◌≡◌};
ghost use Rattle.ga_frame.specs.declared.error.FrameError.TheVariants.{Memory};

use std::alloc::{AllocError, AllocFailed};
use thiserror::Error;

/// Why words were refused as frames, or as the words of a frame. Words are counted from 0.
#[derive(Clone, Copy, Debug, PartialEq, Eq, Error)]
pub enum FrameError {
    /// The words of a frame are more than 3FFFF.
    #[error("TooLong")]
    TooLong,
    /// A frame that begins at this word has fewer than three words.
    #[error("{0} CutHeader")]
    CutHeader(u64),
    /// The frame that begins at this word has a completion over 3FF, or a transfer address over 1FF
    /// or one that is none of RAM, of io, or of one port.
    #[error("{0} BadAddress")]
    BadAddress(u64),
    /// The frame that begins at this word has fewer words than its count.
    #[error("{0} CutBody")]
    CutBody(u64),
    /// This word comes behind the last frame.
    #[error("{0} AfterEnd")]
    AfterEnd(u64),
    /// The words of a stream are more than a number of 64 bits counts.
    #[error("Counted")]
    Counted,
    /// Memory ran out.
    #[error("memory")]
    Memory,
}

impl From<AllocError> for FrameError {
    ghost from_gives = { λ _ error. error ≡ Memory };

    fn from(_refused: AllocError) -> FrameError {
        FrameError::Memory
    }
}

impl<T: Drop> From<AllocFailed<T>> for FrameError {
    ghost from_gives = { λ _ error. error ≡ Memory };

    fn from(_failed: AllocFailed<T>) -> FrameError {
        FrameError::Memory
    }
}
