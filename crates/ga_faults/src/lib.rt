//! The faults of a source text: the first one of each of its sections.
#![tactic(auto)]

mod fault;
mod first;
pub mod laws;
mod listing;
mod naming;
mod order;
mod origins;
mod parts;
mod reading;
mod sections;

pub use fault::Fault;
pub use first::first_fault;
pub use listing::faults;
pub use origins::{at_origin, origin};
pub use parts::{part_at, part_of};
