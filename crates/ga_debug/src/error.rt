ghost use Rattle.std.specs.Prelude.{◌≡◌};
ghost use Rattle.ga_debug.specs.Error.{fault_name};
ghost use Rattle.ga_debug.specs.declared.error.DebugError.TheVariants.{Memory};

use std::alloc::AllocError;
use thiserror::Error;

/// Why a session refuses a command. The session is left as it was.
#[derive(Clone, Copy, Debug, PartialEq, Eq, Error)]
pub enum DebugError {
    /// The first word is no command, or a word is left over.
    #[error("BadCommand")]
    BadCommand,
    /// A word isn't the three digits of a node's name.
    #[error("BadNode")]
    BadNode,
    /// A word isn't three hex digits up to 1FF, nor in a transcript a label of the node.
    #[error("BadAddress")]
    BadAddress,
    /// A word isn't one of `r`, `d`, `l` and `u`.
    #[error("BadSide")]
    BadSide,
    /// A word isn't one to seven decimal digits, or the count is over 1000000.
    #[error("BadCount")]
    BadCount,
    /// A word names nothing that a node shows, or is no value of it.
    #[error("BadValue")]
    BadValue,
    /// The node isn't held at a breakpoint.
    #[error("NotHeld")]
    NotHeld,
    /// Memory ran out.
    #[error("Memory")]
    Memory,
}

impl DebugError {
    /// Its name, as replies show it.
    pub fn name(self) -> &'static str
        ensures { result.now ≡ fault_name self }
    {
        match self {
            DebugError::BadCommand => "BadCommand",
            DebugError::BadNode => "BadNode",
            DebugError::BadAddress => "BadAddress",
            DebugError::BadSide => "BadSide",
            DebugError::BadCount => "BadCount",
            DebugError::BadValue => "BadValue",
            DebugError::NotHeld => "NotHeld",
            DebugError::Memory => "Memory",
        }
    }
}

impl From<AllocError> for DebugError {
    ghost from_gives = { λ _ error. error ≡ Memory };

    fn from(_refused: AllocError) -> DebugError {
        DebugError::Memory
    }
}
