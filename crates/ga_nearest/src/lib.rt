//! The name that is nearest to a word, as one that may have been meant.
#![tactic(auto)]

mod nearest;

pub use nearest::Nearest;
