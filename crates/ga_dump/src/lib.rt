//! The state of a node, its memory, and the numbers of its cells, as text.
#![tactic(auto)]

mod chip;
mod ledger;
mod memory;
mod node;
mod row;
mod side;

pub use chip::chip_text;
pub use ledger::ledger_text;
pub use memory::memory_text;
pub use node::node_text;
pub use side::side_name;
