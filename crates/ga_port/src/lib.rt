//! The 524 one-way cells of the chip as words of one atomic table, so that workers in threads of
//! their own can try the nodes of one chip.
#![tactic(auto)]

mod cells;
mod name;
mod rule;
mod seat;
mod word;

pub use cells::Cells;
pub use seat::{Holding, PortSeat};
