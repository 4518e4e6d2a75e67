ghost use Rattle.std.specs.Prelude.{◌≡◌};
ghost use Rattle.ga_path.specs.declared.error.BootError.TheVariants as boot;
ghost use Rattle.ga_path.specs.declared.error.NamesError.TheVariants as names;
ghost use Rattle.ga_path.specs.declared.error.RouteError.TheVariants as route;
ghost use Rattle.ga_path.specs.declared.error.TreeError.TheVariants as tree;

use ga_place::Node;
use std::alloc::{AllocError, AllocFailed};
use thiserror::Error;

/// Why nodes were refused as a route. Nodes are counted from 0.
#[derive(Clone, Copy, Debug, PartialEq, Eq, Error)]
pub enum RouteError {
    /// There is no node.
    #[error("Empty")]
    Empty,
    /// The first node isn't at an edge of the chip.
    #[error("NotEdge")]
    NotEdge,
    /// This node is no neighbour of the one before it.
    #[error("NotNeighbour {0}")]
    NotNeighbour(usize),
    /// This node is on the route already.
    #[error("Repeated {0}")]
    Repeated(usize),
    /// Memory ran out.
    #[error("memory")]
    Memory,
}

/// Why routes were refused as a tree. Routes are counted from 0.
#[derive(Clone, Copy, Debug, PartialEq, Eq, Error)]
pub enum TreeError {
    /// There is no route.
    #[error("Empty")]
    Empty,
    /// This route begins at another node than the first one.
    #[error("OtherRoot {0}")]
    OtherRoot(usize),
    /// This route reaches a node that is elsewhere in the tree.
    #[error("Repeated {0}")]
    Repeated(usize),
    /// Memory ran out.
    #[error("memory")]
    Memory,
}

/// Why a text was refused as names of nodes.
#[derive(Clone, Copy, Debug, PartialEq, Eq, Error)]
pub enum NamesError {
    /// It isn't names of nodes, three digits each, with commas between them, nor, of routes, such
    /// texts with `/` between them.
    #[error("BadNames")]
    BadNames,
    /// Memory ran out.
    #[error("memory")]
    Memory,
}

/// Why no boot stream was made.
#[derive(Clone, Copy, Debug, PartialEq, Eq, Error)]
pub enum BootError {
    /// This node has an image and isn't on the route, or in the tree.
    #[error("Unreached {0}")]
    Unreached(Node),
    /// Memory ran out.
    #[error("memory")]
    Memory,
}

impl<T: Drop> From<AllocFailed<T>> for NamesError {
    ghost from_gives = { λ _ error. error ≡ names.Memory };

    fn from(_failed: AllocFailed<T>) -> NamesError {
        NamesError::Memory
    }
}

impl From<AllocError> for RouteError {
    ghost from_gives = { λ _ error. error ≡ route.Memory };

    fn from(_refused: AllocError) -> RouteError {
        RouteError::Memory
    }
}

impl<T: Drop> From<AllocFailed<T>> for RouteError {
    ghost from_gives = { λ _ error. error ≡ route.Memory };

    fn from(_failed: AllocFailed<T>) -> RouteError {
        RouteError::Memory
    }
}

impl From<AllocError> for TreeError {
    ghost from_gives = { λ _ error. error ≡ tree.Memory };

    fn from(_refused: AllocError) -> TreeError {
        TreeError::Memory
    }
}

impl<T: Drop> From<AllocFailed<T>> for TreeError {
    ghost from_gives = { λ _ error. error ≡ tree.Memory };

    fn from(_failed: AllocFailed<T>) -> TreeError {
        TreeError::Memory
    }
}

impl From<AllocError> for BootError {
    ghost from_gives = { λ _ error. error ≡ boot.Memory };

    fn from(_refused: AllocError) -> BootError {
        BootError::Memory
    }
}

impl<T: Drop> From<AllocFailed<T>> for BootError {
    ghost from_gives = { λ _ error. error ≡ boot.Memory };

    fn from(_failed: AllocFailed<T>) -> BootError {
        BootError::Memory
    }
}
