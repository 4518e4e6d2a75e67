ghost use Rattle.std.specs.Prelude.{◌≡◌, Some};
ghost use Rattle.ga_expand.specs.Error.{error_text, kind_name};
ghost use Rattle.ga_expand.specs.declared.error.ExpandErrorKind.TheVariants.{Memory};

use std::alloc::{AllocError, AllocFailed};
use std::error::Error;
use std::fmt;

/// The error of a text of the larger language, or out of memory. (The language is this project's
/// own: profile.)
#[derive(Clone, Copy, Debug, PartialEq, Eq)]
pub enum ExpandErrorKind {
    /// A token with a character that isn't ASCII, or no name or value where a definition needs one;
    /// or a token of more than 64 bytes that may stand in many places.
    BadToken,
    /// A number that a word of 18 bits can't hold.
    NumberRange,
    /// In an expression `|` between the address of sides and another number.
    MixedSides,
    /// A name of an opcode or of a number, or a word of the language, for a constant, a body or a
    /// parameter.
    ReservedName,
    /// A name that a constant, a body or a parameter has already, or a label with the name of a
    /// constant.
    DuplicateName,
    /// A definition at which the text ends, or a `use` without its name or an argument on its line.
    OpenDefinition,
    /// A name behind `use` that no body before it has.
    UnknownBody,
    /// A body by which a text has more than 256, a parameter by which a body has more than 64, a
    /// `use` by which all stand for more than 262,144 tokens, or a list of nodes by which the
    /// copies of all have more.
    TooLarge,
    /// No name of a node behind `to`, or in a list of nodes.
    BadNode,
    /// A node behind `to` that is no neighbour, or a direction in which the grid ends.
    NoNeighbour,
    /// Out of memory. No text has this error by itself.
    Memory,
}

impl ExpandErrorKind {
    /// The name, as `BadToken`.
    pub fn name(self) -> &'static str
        ensures { result.now ≡ kind_name self }
    {
        match self {
            ExpandErrorKind::BadToken => "BadToken",
            ExpandErrorKind::NumberRange => "NumberRange",
            ExpandErrorKind::MixedSides => "MixedSides",
            ExpandErrorKind::ReservedName => "ReservedName",
            ExpandErrorKind::DuplicateName => "DuplicateName",
            ExpandErrorKind::OpenDefinition => "OpenDefinition",
            ExpandErrorKind::UnknownBody => "UnknownBody",
            ExpandErrorKind::TooLarge => "TooLarge",
            ExpandErrorKind::BadNode => "BadNode",
            ExpandErrorKind::NoNeighbour => "NoNeighbour",
            ExpandErrorKind::Memory => "Memory",
        }
    }
}

/// Writes the name, as `BadToken`.
impl fmt::Display for ExpandErrorKind {
    ghost output = { λ kind. Some (kind_name kind) };

    fn fmt<W: fmt::Write>(&self, f: &mut fmt::Formatter<W>) -> fmt::Result {
        f.write_str(self.name())
    }
}

impl From<AllocError> for ExpandErrorKind {
    ghost from_gives = { λ _ kind. kind ≡ Memory };

    fn from(_refused: AllocError) -> ExpandErrorKind {
        ExpandErrorKind::Memory
    }
}

impl<T: Drop> From<AllocFailed<T>> for ExpandErrorKind {
    ghost from_gives = { λ _ kind. kind ≡ Memory };

    fn from(_refused: AllocFailed<T>) -> ExpandErrorKind {
        ExpandErrorKind::Memory
    }
}

/// The first error of a text, at the place of its token; or out of memory, whose place has no
/// meaning.
#[derive(Clone, Copy, Debug, PartialEq, Eq)]
pub struct ExpandError {
    pub kind: ExpandErrorKind,
    /// The line, from 1. Lines end by LF.
    pub line: usize,
    /// The column, from 1. Columns count characters, the Unicode scalar values.
    pub column: usize,
}

/// Writes the place and the kind, as `1:15 BadToken`.
impl fmt::Display for ExpandError {
    ghost output = { λ error. Some (error_text error) };

    fn fmt<W: fmt::Write>(&self, f: &mut fmt::Formatter<W>) -> fmt::Result {
        let line = self.line;
        let column = self.column;
        let kind = self.kind;
        write!(f, "{line}:{column} {kind}")
    }
}

impl Error for ExpandError {}

const OUT_OF_MEMORY: ExpandError = ExpandError {
    kind: ExpandErrorKind::Memory,
    line: 1,
    column: 1,
};

impl From<AllocError> for ExpandError {
    ghost from_gives = { λ _ error. error.kind ≡ Memory };

    fn from(_refused: AllocError) -> ExpandError {
        OUT_OF_MEMORY
    }
}

impl<T: Drop> From<AllocFailed<T>> for ExpandError {
    ghost from_gives = { λ _ error. error.kind ≡ Memory };

    fn from(_refused: AllocFailed<T>) -> ExpandError {
        OUT_OF_MEMORY
    }
}
