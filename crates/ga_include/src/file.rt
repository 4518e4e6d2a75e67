ghost use Rattle.std.specs.Prelude.{◌≡◌, map};
ghost use Rattle.ga_include.specs.File.{file_of, index_of, name_at, text_at};

/// A file of source text.
#[derive(Debug, Drop)]
pub struct SourceFile {
    /// The name by which other files mean it, as [`source_path`](crate::source_path) gives it.
    pub name: String,
    pub text: String,
}

/// The place at which a line of a text was written.
#[derive(Clone, Copy, Debug, PartialEq, Eq)]
pub struct LineOrigin {
    /// The file, from 0.
    pub file: usize,
    /// The line of that file, from 1. Lines end by LF.
    pub line: usize,
}

/// The index of the first file with a name.
pub(crate) fn index_of(files: &[SourceFile], name: &str) -> Option<usize>
    ensures { result ≡ index_of (map file_of files.now) name.now }
{
    for (index, file) in files.iter().enumerate() {
        if file.name.as_str() == name {
            return Some(index);
        }
    }
    None
}

/// The name of the file with an index.
pub(crate) fn name_at(files: &[SourceFile], index: usize) -> &str
    ensures { result.now ≡ name_at (map file_of files.now) index }
{
    match files.get(index) {
        Some(file) => file.name.as_str(),
        None => "",
    }
}

/// The text of the file with an index.
pub(crate) fn text_at(files: &[SourceFile], index: usize) -> &str
    ensures { result.now ≡ text_at (map file_of files.now) index }
{
    match files.get(index) {
        Some(file) => file.text.as_str(),
        None => "",
    }
}
