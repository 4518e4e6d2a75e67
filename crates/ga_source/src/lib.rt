//! The source text of programs: its tokens, and the program that it is or its first fault.
#![tactic(auto)]

mod error;
mod item;
mod meaning;
mod name;
mod parser;
mod places;
mod program;
mod section;
mod token;

pub use error::SourceError;
pub use ga_pack::SourceErrorKind;
pub use item::{Item, TransferWord, Value};
pub use name::Name;
pub use places::ItemPlace;
pub use program::{Program, parse};
pub use section::Section;
pub use token::{Place, Token, end_place, tokens};
