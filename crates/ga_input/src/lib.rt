//! What the bytes of an input are: a text, words, images, a chip or a session, or its first fault.
//! It has the faults of the whole program, and reads inputs and writes outputs.
#![tactic(auto)]

mod fault;
mod larger;
mod loading;
mod meaning;
mod reading;
mod reads;
pub mod session;
mod source;
mod text;
mod text_fault;
mod transcript_fault;
mod tree;
mod writes;
mod writing;

pub use crate::fault::{
    IncludeFault, IncludeRefusal, InputFault, OutputFault, RouteFault, ServeError, TextFault,
    WordsFault,
};
pub use crate::larger::{as_written, expanded, is_session, plain_fault};
pub use crate::loading::{Loading, is_head, loaded};
pub use crate::meaning::{head_meaning, words_meaning};
pub use crate::reading::{INPUT_LIMIT, read_input};
pub use crate::reads::{Reads, tried_again};
pub use crate::session::{open_session, push_lines, push_source_head};
pub use crate::source::images_of;
pub use crate::text::{as_text, input_text, words_of};
pub use crate::text_fault::{shown_expand_fault, shown_fault, shown_include_fault};
pub use crate::transcript_fault::{head_line, shown_head_fault, shown_transcript_fault};
pub use crate::tree::tree_of;
pub use crate::writes::Writes;
pub use crate::writing::write_output;
