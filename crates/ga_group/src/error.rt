use ga_place::Node;
use thiserror::Error;

/// Why groups of nodes were refused as a plan. Groups are counted from 0.
#[derive(Clone, Copy, Debug, PartialEq, Eq, Error)]
pub enum PlanError {
    /// There is no group.
    #[error("NoWorker")]
    NoWorker,
    /// This group has no node.
    #[error("Empty {0}")]
    Empty(usize),
    /// This node occurs in the plan before.
    #[error("Repeated {0}")]
    Repeated(Node),
}

/// Why no run of workers was made.
#[derive(Clone, Copy, Debug, PartialEq, Eq, Error)]
pub enum RunError {
    /// There are 2^40 turns or more.
    #[error("TooManyTurns")]
    TooManyTurns,
    /// Memory was refused.
    #[error("Memory")]
    Memory,
}
