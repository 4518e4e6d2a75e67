ghost use Rattle.std.specs.Prelude.{Some};
ghost use Rattle.ga_source.specs.Error.{error_text};

use ga_pack::SourceErrorKind;
use std::error::Error;
use std::fmt;

/// The first fault of a text, at the place of its token, which may be the text's end; or out of
/// memory, whose place has no meaning.
#[derive(Clone, Copy, Debug, PartialEq, Eq)]
pub struct SourceError {
    pub kind: SourceErrorKind,
    /// The line, from 1. Lines end by LF.
    pub line: usize,
    /// The column, from 1. Columns count characters, the Unicode scalar values.
    pub column: usize,
}

/// Writes the place and the kind, as `1:15 BadToken`.
impl fmt::Display for SourceError {
    ghost output = { λ error. Some (error_text error) };

    fn fmt<W: fmt::Write>(&self, f: &mut fmt::Formatter<W>) -> fmt::Result {
        let line = self.line;
        let column = self.column;
        let kind = self.kind;
        write!(f, "{line}:{column} {kind}")
    }
}

impl Error for SourceError {}
