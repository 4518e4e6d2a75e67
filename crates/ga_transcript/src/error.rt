ghost use Rattle.std.specs.Prelude.{◌≡◌};
ghost use Rattle.ga_debug.specs.declared.replay_error.ReplayError.TheVariants as replay;
ghost use Rattle.ga_transcript.specs.declared.error.TranscriptError.TheVariants.{Head, Memory};

use crate::unmet::Unmet;
use ga_debug::ReplayError;
use std::alloc::AllocError;
use thiserror::Error;

/// Why a transcript is refused, or fails its check. Lines are counted from 1, from the text's first
/// line; inside `Head` as [`ReplayError`] counts them. (The texts are this project's own: profile.)
#[derive(Debug, PartialEq, Eq, Drop, Error)]
pub enum TranscriptError {
    /// Its head is refused.
    #[error("{0}")]
    Head(ReplayError),
    /// A line of a reply comes before all commands.
    #[error("line {0} EarlyReply")]
    EarlyReply(u64),
    /// The command of this line has another reply. The text has the lines of the expected one, each
    /// behind `-`, and then those of the actual one, each behind `+`.
    #[error("differs {0}\n{1}")]
    Differs(u64, String),
    /// Each command has the reply behind it, but some are replies to expectations that aren't met.
    #[error("{0}")]
    Failed(Unmet),
    /// The recording would have more bytes than it may.
    #[error("TooLong")]
    TooLong,
    /// Memory ran out.
    #[error("Memory")]
    Memory,
}

impl From<ReplayError> for TranscriptError {
    ghost from_gives = { λ error fault. fault
        ≡ elim error [ replay.Memory ↦ Memory | head ↦ Head head ] };

    fn from(error: ReplayError) -> TranscriptError {
        match error {
            ReplayError::Memory => TranscriptError::Memory,
            _ => TranscriptError::Head(error),
        }
    }
}

impl From<AllocError> for TranscriptError {
    ghost from_gives = { λ _ fault. fault ≡ Memory };

    fn from(_refused: AllocError) -> TranscriptError {
        TranscriptError::Memory
    }
}
