//! Messages about places in source text, as compilers write them, and as JSON.
#![tactic(auto)]

mod json;
mod message;
mod shown;

pub use message::{Form, Level, Message, push_message};
pub use shown::{ShownText, numbered_line, shown_char, shown_lines, shown_name, whole_line};
