ghost use Rattle.std.specs.Prelude.{Some};
ghost use Rattle.ga_asm.specs.Error.{error_text};

use ga_pack::AsmErrorKind;
use ga_place::Node;
use std::error::Error;
use std::fmt;

/// The first fault of a program, with its node, at the place of the name that the item uses or else
/// of the item's first token; or out of memory, with the node at which that was and no place of its
/// own.
#[derive(Clone, Copy, Debug, PartialEq, Eq)]
pub struct AsmError {
    pub kind: AsmErrorKind,
    /// The node whose items have the fault.
    pub node: Node,
    /// The line in the program's text, from 1. Lines end by LF.
    pub line: usize,
    /// The column, from 1. Columns count characters, the Unicode scalar values.
    pub column: usize,
}

/// Writes the node, the place and the kind, as `000 1:15 UndefinedLabel`.
impl fmt::Display for AsmError {
    ghost output = { λ error. Some (error_text error) };

    fn fmt<W: fmt::Write>(&self, f: &mut fmt::Formatter<W>) -> fmt::Result {
        let node = self.node;
        let line = self.line;
        let column = self.column;
        let kind = self.kind;
        write!(f, "{node} {line}:{column} {kind}")
    }
}

impl Error for AsmError {}
