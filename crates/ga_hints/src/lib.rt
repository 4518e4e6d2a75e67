//! What may help with a fault of a source text: a name that may have been meant, what a misused
//! token is, the body that has no end, or the size of a program that is too long.
#![tactic(auto)]

mod bodies;
mod hint_kind;
mod hints;
mod labels;
pub mod laws;
mod names;
mod nearest;
mod open_word;
mod program_hints;
mod size;
mod source_hints;

pub use hint_kind::Hint;
pub use hints::hint;
pub use size::Size;
