//! Frames, of which a boot stream is made.
#![tactic(auto)]

mod error;
mod feed;
mod frame;
pub mod laws;
mod parsing;
mod reading;
mod writing;

pub use error::FrameError;
pub use feed::FrameFeed;
pub use frame::{Frame, MORE};
pub use reading::read_frames;
pub use writing::write_frame;
