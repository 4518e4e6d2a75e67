use ga_frame::FrameError;
use std::alloc::{AllocError, AllocFailed};
use thiserror::Error;

/// Why a stream was not cut, or not in each way.
#[derive(Debug, Drop, Error)]
pub enum Fault {
    #[error("arguments")]
    Arguments,
    #[error("memory")]
    Memory,
    /// The words are no frames.
    #[error("frames {0}")]
    Frames(FrameError),
    /// A chip refused the stream, or a piece of it.
    #[error("refused")]
    Refused,
    /// The stream wasn't taken in a million turns.
    #[error("not taken")]
    NotTaken,
}

impl From<AllocError> for Fault {
    fn from(_refused: AllocError) -> Fault {
        Fault::Memory
    }
}

impl<T: Drop> From<AllocFailed<T>> for Fault {
    fn from(_failed: AllocFailed<T>) -> Fault {
        Fault::Memory
    }
}

impl From<FrameError> for Fault {
    fn from(fault: FrameError) -> Fault {
        match fault {
            FrameError::Memory => Fault::Memory,
            _ => Fault::Frames(fault),
        }
    }
}
