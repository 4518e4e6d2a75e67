//! Observed runs: tries and turns of a chip that hand each step to an observer.
#![tactic(auto)]

pub mod laws;
mod next;
mod observer;
mod observing;
mod step;
mod step_counts;

pub use observer::Observer;
pub use observing::{attempt, run, turn, turns};
pub use step::{Deed, Step};
pub use step_counts::{StepCounts, count_steps};
