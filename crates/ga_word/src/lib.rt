//! Words of 18 bits, the 32 opcodes of the F18A, and the text of words.
#![tactic(auto)]

mod hex;
mod op;
mod text;
mod tokens;
mod word;

pub use hex::{Hex3, hex5, read_hex5};
pub use op::Op;
pub use text::{WordsError, push_words, read_words, words_text};
pub use tokens::{first_blank, first_non_blank};
pub use word::Word18;
