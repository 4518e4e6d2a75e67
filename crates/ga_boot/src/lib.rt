//! The boot of a tree of nodes, in every schedule: which words each node takes and what it does,
//! whatever the others do.
#![tactic(auto)]

mod loadable;

pub use loadable::images_fit;
