//! Messages about an input: its warnings, and all its faults, at the places where they were
//! written.
#![tactic(auto)]

mod file_faults;
mod lines;
pub mod lint;
mod listing;
mod message;
mod placed_fault;
mod word_place;
mod written_lines;

pub use crate::file_faults::faults_message;
pub use crate::lines::Lines;
pub use crate::listing::written_listing;
pub use crate::message::fault_message;
