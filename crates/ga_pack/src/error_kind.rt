ghost use Rattle.std.specs.Prelude.{◌≡◌, Some};
ghost use Rattle.ga_pack.specs.Model.LayoutFault.{asm_kind_name};
ghost use Rattle.ga_pack.specs.Model.Token.{source_kind_name};
ghost use Rattle.ga_pack.specs.declared.error_kind.AsmErrorKind.TheVariants as asm;
ghost use Rattle.ga_pack.specs.declared.error_kind.SourceErrorKind.TheVariants as source;

use std::alloc::{AllocError, AllocFailed};
use std::fmt;

/// The fault of a source text, or out of memory. (The texts are this project's own: profile.)
#[derive(Clone, Copy, Debug, PartialEq, Eq)]
pub enum SourceErrorKind {
    /// No token of the language, or one that isn't allowed there.
    BadToken,
    /// A number over 3FFFF, or a destination outside brackets over 3FF.
    NumberRange,
    /// No name of a node behind `node`.
    BadNode,
    /// The name of a node that has a section already.
    DuplicateNode,
    /// A label that its section has already.
    DuplicateLabel,
    /// A label with the name of an opcode or of a number, or a word of the language.
    ReservedLabel,
    /// A bracketed word that does not end before the next `[` or the text's end.
    OpenBracket,
    /// A bracketed word that is no word, or an item in place of a follower of a bracketed word.
    BadWord,
    /// A text that does not begin with `node`.
    NoNode,
    /// A section without a word.
    Empty,
    /// Out of memory. No text has this fault by itself.
    Memory,
}

/// Writes the name, as `BadToken`.
impl fmt::Display for SourceErrorKind {
    ghost output = { λ kind. Some (source_kind_name kind) };

    fn fmt<W: fmt::Write>(&self, f: &mut fmt::Formatter<W>) -> fmt::Result {
        f.write_str(self.name())
    }
}

impl SourceErrorKind {
    /// The name, as `BadToken`.
    pub fn name(self) -> &'static str
        ensures { result.now ≡ source_kind_name self }
    {
        match self {
            SourceErrorKind::BadToken => "BadToken",
            SourceErrorKind::NumberRange => "NumberRange",
            SourceErrorKind::BadNode => "BadNode",
            SourceErrorKind::DuplicateNode => "DuplicateNode",
            SourceErrorKind::DuplicateLabel => "DuplicateLabel",
            SourceErrorKind::ReservedLabel => "ReservedLabel",
            SourceErrorKind::OpenBracket => "OpenBracket",
            SourceErrorKind::BadWord => "BadWord",
            SourceErrorKind::NoNode => "NoNode",
            SourceErrorKind::Empty => "Empty",
            SourceErrorKind::Memory => "Memory",
        }
    }
}

impl From<AllocError> for SourceErrorKind {
    ghost from_gives = { λ _ kind. kind ≡ source.Memory };

    fn from(_refused: AllocError) -> SourceErrorKind {
        SourceErrorKind::Memory
    }
}

impl<T: Drop> From<AllocFailed<T>> for SourceErrorKind {
    ghost from_gives = { λ _ kind. kind ≡ source.Memory };

    fn from(_refused: AllocFailed<T>) -> SourceErrorKind {
        SourceErrorKind::Memory
    }
}

/// Why a program has no images: its fault, or out of memory. (The limits are this project's own:
/// profile.)
#[derive(Clone, Copy, Debug, PartialEq, Eq)]
pub enum AsmErrorKind {
    /// An item uses a name that is no label of its node.
    UndefinedLabel,
    /// A name in brackets is out of reach from its slot.
    OutOfReach,
    /// An `unext` outside brackets would come to slot 0.
    UnextAlone,
    /// A word or a follower of an item would be the 65th.
    TooLong,
    /// Out of memory. No program has this fault by itself.
    Memory,
}

/// Writes the name, as `OutOfReach`.
impl fmt::Display for AsmErrorKind {
    ghost output = { λ kind. Some (asm_kind_name kind) };

    fn fmt<W: fmt::Write>(&self, f: &mut fmt::Formatter<W>) -> fmt::Result {
        f.write_str(self.name())
    }
}

impl AsmErrorKind {
    /// The name, as `OutOfReach`.
    pub fn name(self) -> &'static str
        ensures { result.now ≡ asm_kind_name self }
    {
        match self {
            AsmErrorKind::UndefinedLabel => "UndefinedLabel",
            AsmErrorKind::OutOfReach => "OutOfReach",
            AsmErrorKind::UnextAlone => "UnextAlone",
            AsmErrorKind::TooLong => "TooLong",
            AsmErrorKind::Memory => "Memory",
        }
    }
}

impl From<AllocError> for AsmErrorKind {
    ghost from_gives = { λ _ kind. kind ≡ asm.Memory };

    fn from(_refused: AllocError) -> AsmErrorKind {
        AsmErrorKind::Memory
    }
}

impl<T: Drop> From<AllocFailed<T>> for AsmErrorKind {
    ghost from_gives = { λ _ kind. kind ≡ asm.Memory };

    fn from(_refused: AllocFailed<T>) -> AsmErrorKind {
        AsmErrorKind::Memory
    }
}
