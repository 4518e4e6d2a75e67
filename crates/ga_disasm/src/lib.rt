//! The disassembler: the items of the words of a node, and their source text.
#![tactic(auto)]

mod disassembling;
mod item;
mod printing;

pub use disassembling::items;
pub use item::Item;
pub use printing::{print, push_ops};
