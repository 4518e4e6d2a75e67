ghost use Rattle.std.specs.Prelude.{◌≡◌};
ghost use Rattle.ga_include.specs.Error.{kind_name};
ghost use Rattle.ga_include.specs.declared.error.IncludeError.TheVariants.{Memory};

use std::alloc::{AllocError, AllocFailed};

/// The fault of a line. (The form is this project's own: profile.)
#[derive(Clone, Copy, Debug, PartialEq, Eq)]
pub enum IncludeFaultKind {
    /// A line whose first token is `include`, and that isn't `include "NAME"`.
    BadInclude,
    /// The line includes a file in which it stands, itself or through other files.
    IncludeCycle,
    /// The line stands in the 16th of files each of which includes the next one.
    IncludeDepth,
    /// The line includes a file that isn't there, and 64 files are.
    IncludeCount,
    /// With this line the whole text has more than 1,048,576 bytes.
    IncludeSize,
}

impl IncludeFaultKind {
    /// The name, as `BadInclude`.
    pub fn name(self) -> &'static str
        ensures { result.now ≡ kind_name self }
    {
        match self {
            IncludeFaultKind::BadInclude => "BadInclude",
            IncludeFaultKind::IncludeCycle => "IncludeCycle",
            IncludeFaultKind::IncludeDepth => "IncludeDepth",
            IncludeFaultKind::IncludeCount => "IncludeCount",
            IncludeFaultKind::IncludeSize => "IncludeSize",
        }
    }
}

/// A place in a file.
#[derive(Clone, Copy, Debug, PartialEq, Eq)]
pub struct IncludePlace {
    /// The file, from 0.
    pub file: usize,
    /// The line, from 1. Lines end by LF.
    pub line: usize,
    /// The column, from 1. Columns count characters, the Unicode scalar values.
    pub column: usize,
}

/// Why files make no text.
#[derive(Debug, Drop)]
pub enum IncludeError {
    /// A line is at fault. The place is that of its token `include`, or the begin of a line that
    /// doesn't fit.
    Fault {
        place: IncludePlace,
        kind: IncludeFaultKind,
    },
    /// The file that a line includes isn't among the files. The place is that of the line's token
    /// `include`.
    Wanted {
        place: IncludePlace,
        name: String,
    },
    /// Out of memory. No files have this error by themselves.
    Memory,
}

impl From<AllocError> for IncludeError {
    ghost from_gives = { λ _ error. error ≡ Memory };

    fn from(_refused: AllocError) -> IncludeError {
        IncludeError::Memory
    }
}

impl<T: Drop> From<AllocFailed<T>> for IncludeError {
    ghost from_gives = { λ _ error. error ≡ Memory };

    fn from(_refused: AllocFailed<T>) -> IncludeError {
        IncludeError::Memory
    }
}
