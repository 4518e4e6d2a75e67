//! A run of a chip as a page in HTML.
#![tactic(auto)]

mod close_up;
mod close_up_rows;
mod columns;
mod ending;
mod escape;
mod holders;
mod kind;
pub mod laws;
mod line;
mod listing;
mod marks;
mod most;
mod page;
mod parts;
mod path_line;
mod path_watch;
mod picture;
mod posted;
mod rows;
mod scale;
mod source;
mod style;
mod timeline;
mod trail;
mod transfer_lines;
mod transfer_watch;
mod transfers;
mod watched;
mod words;

pub use close_up::{CloseUp, close_up_in, close_up_window};
pub use kind::Kind;
pub use page::{Page, page_text};
pub use timeline::{Timeline, timeline_in, timeline_of_part};
pub use transfers::{Transfer, transfers_in};
