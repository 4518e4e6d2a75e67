ghost use Rattle.std.specs.Prelude.{◌≡◌};
ghost use Rattle.ga_path.specs.declared.error.BootError.TheVariants as boot;
ghost use Rattle.ga_path.specs.declared.error.NamesError.TheVariants as names;
ghost use Rattle.ga_debug.specs.ReplayError.{fault_of_route, fault_of_text, fault_of_tree};
ghost use Rattle.ga_debug.specs.declared.replay_error.ReplayError.TheVariants.{BadRoute, Boot, Memory};

use crate::error::DebugError;
use ga_asm::{AsmError, TextError};
use ga_path::{BootError, NamesError, RouteError, TreeError};
use ga_source::SourceError;
use std::alloc::{AllocError, AllocFailed};
use thiserror::Error;

/// Why a replay text is refused. Lines are counted from 1, from the text's first line; inside
/// `Source` and `Asm` from the first source line. (The texts are this project's own: profile.)
#[derive(Clone, Copy, Debug, PartialEq, Eq, Error)]
pub enum ReplayError {
    /// The first line isn't `profile 2`; of `replay`, it is neither that nor `profile 1`.
    #[error("BadProfile")]
    BadProfile,
    /// The second line is missing, or is neither `place` nor `route` and routes.
    #[error("BadRoute")]
    BadRoute,
    /// No line is `go`.
    #[error("NoGo")]
    NoGo,
    /// The source lines have a fault.
    #[error("Source")]
    Source(SourceError),
    /// The program of the source lines has a fault.
    #[error("Asm")]
    Asm(AsmError),
    /// Nodes are no route.
    #[error("Route")]
    Route(RouteError),
    /// The routes are no tree.
    #[error("Tree")]
    Tree(TreeError),
    /// A node of the program isn't on a route.
    #[error("Boot")]
    Boot(BootError),
    /// The command of this line is refused.
    #[error("line {0} {1}")]
    Bad(u64, DebugError),
    /// The result isn't the one that this line states.
    #[error("differs {0}")]
    Differs(u64),
    /// Memory ran out.
    #[error("Memory")]
    Memory,
}

impl From<TextError> for ReplayError {
    ghost from_gives = { λ error fault. fault ≡ fault_of_text error };

    fn from(error: TextError) -> ReplayError {
        match error {
            TextError::Source(fault) => ReplayError::Source(fault),
            TextError::Asm(fault) => ReplayError::Asm(fault),
            TextError::Memory => ReplayError::Memory,
        }
    }
}

impl From<NamesError> for ReplayError {
    ghost from_gives = { λ error fault. fault
        ≡ elim error [ names.BadNames ↦ BadRoute | names.Memory ↦ Memory ] };

    fn from(error: NamesError) -> ReplayError {
        match error {
            NamesError::BadNames => ReplayError::BadRoute,
            NamesError::Memory => ReplayError::Memory,
        }
    }
}

impl From<RouteError> for ReplayError {
    ghost from_gives = { λ error fault. fault ≡ fault_of_route error };

    fn from(error: RouteError) -> ReplayError {
        match error {
            RouteError::Memory => ReplayError::Memory,
            _ => ReplayError::Route(error),
        }
    }
}

impl From<TreeError> for ReplayError {
    ghost from_gives = { λ error fault. fault ≡ fault_of_tree error };

    fn from(error: TreeError) -> ReplayError {
        match error {
            TreeError::Memory => ReplayError::Memory,
            _ => ReplayError::Tree(error),
        }
    }
}

impl From<BootError> for ReplayError {
    ghost from_gives = { λ error fault. fault
        ≡ elim error [
          | boot.Memory ↦ Memory
          | boot.Unreached node ↦ Boot (boot.Unreached node)
        ] };

    fn from(error: BootError) -> ReplayError {
        match error {
            BootError::Memory => ReplayError::Memory,
            BootError::Unreached(_) => ReplayError::Boot(error),
        }
    }
}

impl From<AllocError> for ReplayError {
    ghost from_gives = { λ _ fault. fault ≡ Memory };

    fn from(_refused: AllocError) -> ReplayError {
        ReplayError::Memory
    }
}

impl<T: Drop> From<AllocFailed<T>> for ReplayError {
    ghost from_gives = { λ _ fault. fault ≡ Memory };

    fn from(_failed: AllocFailed<T>) -> ReplayError {
        ReplayError::Memory
    }
}
