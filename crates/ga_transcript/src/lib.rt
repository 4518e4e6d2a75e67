//! Transcripts: commands of a session with their expected replies, checked or recorded.
#![tactic(auto)]

mod checking;
mod differences;
mod error;
mod line;
mod lines;
mod live;
mod recording;
mod reply;
mod unmet;

pub use checking::check;
pub use differences::{Comparison, compare};
pub use error::TranscriptError;
pub use live::{Live, without_line_end};
pub use recording::record;
pub use reply::{is_read_as_reply, lines_in};
pub use unmet::{Unmet, find_unmet};
