//! A run as a waveform: what each node does in each turn, as text in VCD (IEEE 1364).
#![tactic(auto)]

mod change;
mod deed;
mod header;
mod identifier;
pub mod laws;
mod nodes;
mod sample;
mod save;
mod signal;
mod tracer;
mod value;
mod wave;
mod work;

pub use nodes::nodes_with_image;
pub use save::save_text;
pub use signal::Signal;
pub use tracer::{Tracer, fits, push_end, waveform};
