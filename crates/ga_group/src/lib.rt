//! Workers in threads that try the nodes of a chip, each those of its own group.
#![tactic(auto)]

mod alone;
mod error;
mod gate;
mod halves;
pub mod laws;
mod order;
mod plan;
mod together;
mod work;
mod workers;

pub use error::{PlanError, RunError};
pub use gate::{Gate, Open};
pub use plan::Plan;
pub use together::Together;
pub use workers::run_workers;
