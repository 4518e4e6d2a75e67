//! The bench's promises for every source, every boot and every schedule, as one law, and what its
//! counts of stacks and its rest mean, as two more.
#![tactic(auto)]

pub mod laws;
