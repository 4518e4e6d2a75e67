//! How often each word of a node was fetched and each slot's opcode run, and listings with it.
#![tactic(auto)]

mod columns;
mod count_watch;
mod counts;
mod heat;
mod listing;
mod row;
mod section;
mod word_counts;

pub use counts::{Counts, count};
pub use listing::{counted_list, counted_sections};
pub use section::CountedSection;
pub use word_counts::WordCounts;
