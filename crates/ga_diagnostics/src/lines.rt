//! Where the lines of a text were written.
ghost use Rattle.std.specs.Prelude.{◌≡◌};
ghost use Rattle.ga_diagnostics.specs.Lines.{name_at, name_of, origins_of};

use ga_include::{Included, SourceFile};

/// Where the lines of a text were written.
#[derive(Clone, Copy)]
pub enum Lines<'a> {
    /// In the file with this name; `-` is standard input.
    File(&'a str),
    /// In these files, of which the first includes the others.
    Files(&'a [SourceFile], &'a Included),
}

impl<'a> Lines<'a> {
    /// The name of the file, or of the one that includes the others.
    pub fn name(&self) -> &'a str
        ensures { result.now ≡ name_of self.now }
    {
        match self {
            Lines::File(name) => *name,
            Lines::Files(files, _) => name_at(files, 0),
        }
    }

    /// The name of the file where a line of the text was written, and its number there. Lines are
    /// counted from 1.
    pub(crate) fn origin(&self, line: usize) -> (&'a str, usize)
        ensures { record { name = result.0.now; line = result.1 } ≡ origins_of self.now line }
    {
        match self {
            Lines::File(name) => (*name, line),
            Lines::Files(files, included) => match included.origin(line) {
                Some(origin) => (name_at(files, origin.file), origin.line),
                None => ("", line),
            },
        }
    }
}

/// The name of the file with an index.
fn name_at(files: &[SourceFile], index: usize) -> &str
    ensures { result.now ≡ name_at files.now index }
{
    match files.get(index) {
        Some(file) => file.name.as_str(),
        None => "",
    }
}
