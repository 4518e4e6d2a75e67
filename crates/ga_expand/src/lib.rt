//! A larger source language, which expands to the plain one, token by token.
#![tactic(auto)]

mod bodies;
mod constants;
mod error;
mod expander;
mod expansion;
mod expression;
mod literal;
mod making;
mod node_lists;
mod operand;
mod operator;
mod piece;
mod pieces;
mod places;
mod role;
mod sides;
mod spelling;
mod unfolder;
mod unfolding;
mod value;
mod writing;

pub use error::{ExpandError, ExpandErrorKind};
pub use expansion::{Expansion, expand};
pub use operand::is_expression;
