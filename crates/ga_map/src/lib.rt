//! A picture of the chip as text: what each node does, and the words that are pending.
#![tactic(auto)]

mod behind;
mod link;
mod mark;
mod pending;
mod picture;
mod position;
mod posted;
mod rings;
mod text;

pub use behind::stuck_names;
pub use text::map;
