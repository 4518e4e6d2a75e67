//! The assembler: the images of a program's nodes, or the first fault of the program.
#![tactic(auto)]

mod assembling;
mod error;
mod image;
mod items;
mod layout;
mod making;
mod open_word;
mod places;
mod reach;
mod text;

pub use assembling::{Images, assemble};
pub use error::AsmError;
pub use ga_pack::AsmErrorKind;
pub use image::{Image, label_at};
pub use places::word_places;
pub use reach::p_behind;
pub use text::{TextError, assemble_text};
