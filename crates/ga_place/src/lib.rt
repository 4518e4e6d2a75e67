//! The nodes of the GA144, their sides, and the addresses within a node.
#![tactic(auto)]

mod address;
mod cell_id;
mod node;
mod side;

pub use address::{Where, advance, idle_address, locate, port_address, ports_at};
pub use cell_id::{CellId, cell};
pub use node::Node;
pub use side::{SIDES, Side, Sides, neighbour, side_to};
