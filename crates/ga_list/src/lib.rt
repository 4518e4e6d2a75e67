//! The listing of a source text: each word of its nodes with its instructions and its place in the
//! text.
#![tactic(auto)]

mod labels;
pub mod laws;
mod line_names;
mod lines;
mod listing;
mod reading;
mod row;

pub use labels::list_labels;
pub use line_names::LineNames;
pub use lines::line_of;
pub use listing::{list, list_with};
pub use reading::push_reading;
pub use row::{push_item, push_labels};
