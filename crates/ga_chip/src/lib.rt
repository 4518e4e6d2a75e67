//! The whole chip: 144 nodes that pass words to one another over the cells between them.
#![tactic(auto)]

mod asks;
mod breaks;
mod chip;
mod counts;
mod error;
pub mod laws;
mod ledger;
mod looks;
mod node_set;
mod outcome;
mod part;
mod port;
mod row;
mod stream;
mod stuck;
mod watch;

pub use asks::Asks;
pub use chip::Chip;
pub use error::ChipError;
pub use ledger::Ledger;
pub use looks::Looks;
pub use outcome::{Outcome, Try, side_of_turn};
pub use part::NodePart;
pub use row::CellRow;
pub use stuck::StuckNodes;
