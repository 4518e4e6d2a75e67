//! What a hint is.
ghost use Rattle.std.specs.Prelude.{Some};
ghost use Rattle.ga_hints.specs.Hints.{hint_text};

use crate::size::Size;
use std::fmt;

/// What may help with a fault of a source text.
#[derive(Debug, PartialEq, Eq, Drop)]
pub enum Hint {
    /// The known name that is nearest to the token at the fault.
    Nearest(String),
    /// The words that the node's program needs, which are more than its memory has.
    Needs(Size),
    /// The token is the name of a body.
    Body(String),
    /// The token is the name of a label.
    Label(String),
    /// The token is an expression.
    Expression,
    /// The token begins a definition.
    Definition,
    /// The name of a body that has no `end`.
    OpenBody(String),
}

/// Writes the hint, as `the nearest name is SIZE`, or
/// `it needs 71 words: 37 code, 34 data; 7 over`, or `stage is a body: use stage`.
impl fmt::Display for Hint {
    ghost output = { λ hint. Some (hint_text hint) };

    fn fmt<W: fmt::Write>(&self, f: &mut fmt::Formatter<W>) -> fmt::Result {
        match self {
            Hint::Nearest(name) => write!(f, "the nearest name is {name}"),
            Hint::Needs(size) => write!(f, "{size}"),
            Hint::Body(name) => write!(f, "{name} is a body: use {name}"),
            Hint::Label(name) => {
                write!(
                    f,
                    "{name} is a label: call {name}, or &{name} for its address; in data , {name}"
                )
            }
            Hint::Expression => f.write_str("an expression stands only behind const"),
            Hint::Definition => f.write_str("definitions come first"),
            Hint::OpenBody(name) => write!(f, "the body {name} has no end"),
        }
    }
}
