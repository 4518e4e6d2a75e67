//! What the names and terms mean that the program writes: faults, needs, stops, outcomes and more.
#![tactic(auto)]

mod includes;
mod input;
mod language;
mod larger;
mod layout;
mod needs;
mod output;
mod routes;
mod sessions;
mod source;
mod terms;
mod topic;
mod warnings;

pub use crate::output::output as explain;
pub use crate::topic::{Topic, meaning, topics};
