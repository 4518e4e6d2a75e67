//! One node of the GA144: its state, what it needs for its next step, and its steps.
#![tactic(auto)]

mod copy;
mod decoded;
mod fetch;
mod line;
mod loader;
mod moves;
mod need;
mod place;
mod running;
mod skip;
mod slot;
mod spinning;
mod stack;
mod state;
mod step;
mod work;

pub use need::{Need, Stop};
pub use place::Place;
pub use spinning::{Ahead, LONGEST_SPIN};
pub use state::NodeState;
