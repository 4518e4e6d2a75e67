//! Runs of a chip as text: the steps of one node, each as a line; its values; how deep its stacks
//! were.
#![tactic(auto)]

mod all_nodes;
mod at;
mod changes;
mod depth;
mod last;
mod last_steps;
pub mod laws;
mod line;
mod rest;
mod spin_watch;
mod stepped;
mod traced;
mod watched;
mod what;

pub use all_nodes::all_depths;
pub use at::at_word;
pub use depth::{StackDepth, StackDepths, depths};
pub use rest::{Ran, run, spins};
pub use spin_watch::SpinWatch;
pub use stepped::step;
pub use traced::trace;
pub use watched::watch;
pub use what::{Register, Value, What, value_of};
