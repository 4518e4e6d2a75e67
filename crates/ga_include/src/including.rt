//! The text of a file with those that it includes.
ghost use Rattle.std.specs.Prelude.{◌≡◌, ◌+◌, IfErr, IfOk, IfSome, Err, Ok, OnOk, [], ◌∷◌, ◌++◌, length, map, nat_le, string_bytes};
ghost use Rattle.ga_pack.specs.Model.Text.{lines_of};
ghost use Rattle.ga_include.specs.Error.{trouble_of};
ghost use Rattle.ga_include.specs.File.{file_of};
ghost use Rattle.ga_include.specs.Including.{Inner, ended_lines, file_items, include_items, included, last_items, last_line, line_items, lines_items, most_text, origin_of, path_items, place_in, rest_items, whole_of, written_line};
ghost use Rattle.ga_include.specs.declared.error.IncludeError.TheVariants.{Fault};
ghost use Rattle.ga_include.specs.Laws.{LinesHaveOrigins, PlainStays, WantsAbsent};
ghost use Rattle.ga_include.specs.inner.Adding.{Adds, Fails, scope_of};

use crate::error::{IncludeError, IncludeFaultKind, IncludePlace};
use crate::file::{LineOrigin, SourceFile, index_of, name_at, text_at};
use crate::line::{column_of, first_line, is_include, name_in};
use crate::path::source_path;
use std::alloc::Global;

/// The most files of a text.
const MOST_FILES: usize = 64;
/// The most files that include each other in a row.
const MOST_OPEN: usize = 16;
/// The most bytes of a text.
const MOST_TEXT: usize = 1 << 20;

/// The text of a file with those that it includes.
#[derive(Debug, Drop)]
pub struct Included {
    pub text: String,
    /// The place at which each line of the text was written, in order. What is behind the last LF
    /// is a line too.
    pub lines: Vec<LineOrigin>,
}

/// The files, and those in which a line stands.
#[derive(Drop)]
pub(crate) struct Scope<'a> {
    files: &'a [SourceFile],
    /// The files in which the line stands, each included by the one before it.
    around: &'a [usize],
    /// How many more files may include each other.
    left: usize,
}

/// The text of the first of some files with those that it includes; or else the first line of it
/// that is at fault, or that includes a file that isn't there. (The form is this project's own:
/// profile.)
///
/// A line `include "NAME"` stands for the lines of the file that the name means, as
/// [`source_path`] gives it. With no files the text is empty. Fails with `Memory` only when out of
/// memory.
pub fn expand_includes(alloc: Global, files: &[SourceFile]) -> Result<Included, IncludeError>
    ensures text { IfOk result (λ made. included (map file_of files.now) ≡ Ok (whole_of made)) }
    // each line of the text has its origin
    ensures lines { IfOk result (λ made. LinesHaveOrigins (whole_of made)) }
    ensures trouble { IfErr result (λ error. IfSome (trouble_of error)
        (λ trouble. included (map file_of files.now) ≡ Err trouble)) }
    // a file that is wanted isn't there
    ensures wanted { IfErr result (WantsAbsent (map file_of files.now)) }
    // a text without include lines stays as it is
    ensures plain { PlainStays (map file_of files.now) }
{
    whole_text(alloc, files)
}

/// The same: its first two clauses.
fn whole_text(alloc: Global, files: &[SourceFile]) -> Result<Included, IncludeError>
    ensures text { IfOk result (λ made. included (map file_of files.now) ≡ Ok (whole_of made)) }
    ensures trouble { IfErr result (λ error. IfSome (trouble_of error)
        (λ trouble. included (map file_of files.now) ≡ Err trouble)) }
{
    let mut made = Included {
        text: String::new(alloc),
        lines: Vec::new(alloc),
    };
    let scope = Scope {
        files,
        around: &[0],
        left: MOST_OPEN - 1,
    };
    let (last, line) = made.push_lines(alloc, &scope, 0, text_at(files, 0))?;
    made.push_last(alloc, &scope, LineOrigin { file: 0, line }, last)?;
    Ok(made)
}

impl Included {
    /// The place at which a line of the text was written, by its number from 1.
    pub fn origin(&self, line: usize) -> Option<LineOrigin>
        ensures { result ≡ origin_of self.now.lines.items line }
    {
        self.lines.get(line.checked_sub(1)?).copied()
    }

    /// Adds what the lines of a text that LF ends stand for, and returns what is behind the last
    /// LF, with the number of that line.
    #[cycle(files)]
    fn push_lines<'a>(
        &mut self,
        alloc: Global,
        scope: &Scope<'_>,
        file: usize,
        text: &'a str,
    ) -> Result<(&'a str, usize), IncludeError>
        ensures added { OnOk result (Adds self.old (lines_items (file_items scope.now.left)
            (scope_of scope.now) file 1 (ended_lines (lines_of text.now))) self.new) }
        ensures last { IfOk result (λ rest. rest.0.now ≡ last_line (lines_of text.now)) }
        ensures line { IfOk result (λ rest. rest.1
            ≡ length (ended_lines (lines_of text.now)) + 1) }
        ensures trouble { IfErr result (Fails self.old (lines_items (file_items scope.now.left)
            (scope_of scope.now) file 1 (ended_lines (lines_of text.now)))) }
    {
        let mut rest = text;
        let mut number = 1;
        while let Some((line, behind)) = first_line(rest) {
            let origin = LineOrigin { file, line: number };
            self.push_line(alloc, scope, origin, line)?;
            number += 1;
            rest = behind;
        }
        Ok((rest, number))
    }

    /// Adds what a line that LF ends stands for.
    #[cycle(files)]
    fn push_line(
        &mut self,
        alloc: Global,
        scope: &Scope<'_>,
        origin: LineOrigin,
        line: &str,
    ) -> Result<(), IncludeError>
        ensures added { OnOk result (Adds self.old (line_items (file_items scope.now.left)
            (scope_of scope.now) origin line.now) self.new) }
        ensures trouble { IfErr result (Fails self.old (line_items (file_items scope.now.left)
            (scope_of scope.now) origin line.now)) }
    {
        if is_include(line.as_bytes()) {
            self.push_include(alloc, scope, origin, line)
        } else {
            self.push_text(origin, line, "\n")
        }
    }

    /// Adds what is behind the last LF of an included text.
    #[cycle(files)]
    fn push_rest(
        &mut self,
        alloc: Global,
        scope: &Scope<'_>,
        origin: LineOrigin,
        line: &str,
    ) -> Result<(), IncludeError>
        ensures added { OnOk result (Adds self.old (rest_items (file_items scope.now.left)
            (scope_of scope.now) origin line.now) self.new) }
        ensures trouble { IfErr result (Fails self.old (rest_items (file_items scope.now.left)
            (scope_of scope.now) origin line.now)) }
    {
        if line.is_empty() && origin.line > 1 {
            Ok(())
        } else {
            self.push_line(alloc, scope, origin, line)
        }
    }

    /// Adds what an include line stands for.
    #[cycle(files)]
    fn push_include(
        &mut self,
        alloc: Global,
        scope: &Scope<'_>,
        origin: LineOrigin,
        line: &str,
    ) -> Result<(), IncludeError>
        ensures added { OnOk result (Adds self.old (include_items (file_items scope.now.left)
            (scope_of scope.now) origin line.now) self.new) }
        ensures trouble { IfErr result (Fails self.old (include_items (file_items scope.now.left)
            (scope_of scope.now) origin line.now)) }
    {
        let index = scope.file_in(alloc, origin, line)?;
        self.push_file(alloc, scope, place_in(origin, line), index)
    }

    /// Adds what the file with an index stands for, which the line at a place includes.
    #[cycle(files)]
    fn push_file(
        &mut self,
        alloc: Global,
        scope: &Scope<'_>,
        place: IncludePlace,
        index: usize,
    ) -> Result<(), IncludeError>
        ensures added { OnOk result (Adds self.old (file_items scope.now.left
            (scope_of scope.now) place index) self.new) }
        ensures trouble { IfErr result (Fails self.old (file_items scope.now.left
            (scope_of scope.now) place index)) }
    {
        if scope.left == 0 {
            return Err(fault(place, IncludeFaultKind::IncludeDepth));
        }
        let mut around = Vec::new(alloc);
        around.extend_from_slice(scope.around)?;
        around.push(index)?;
        let inner = Scope {
            files: scope.files,
            around: around.as_slice(),
            left: scope.left - 1,
        };
        let text = text_at(scope.files, index);
        let (rest, line) = self.push_lines(alloc, &inner, index, text)?;
        self.push_rest(alloc, &inner, LineOrigin { file: index, line }, rest)
    }

    /// Adds what is behind the last LF of the file itself.
    fn push_last(
        &mut self,
        alloc: Global,
        scope: &Scope<'_>,
        origin: LineOrigin,
        line: &str,
    ) -> Result<(), IncludeError>
        ensures added { OnOk result (Adds self.old (last_items (file_items scope.now.left)
            (scope_of scope.now) origin line.now) self.new) }
        ensures trouble { IfErr result (Fails self.old (last_items (file_items scope.now.left)
            (scope_of scope.now) origin line.now)) }
    {
        if is_include(line.as_bytes()) {
            self.push_include(alloc, scope, origin, line)?;
            self.push_text(origin, "", "")
        } else {
            self.push_text(origin, line, "")
        }
    }

    /// Adds a line, with what ends it.
    fn push_text(&mut self, origin: LineOrigin, line: &str, end: &str) -> Result<(), IncludeError>
        ensures added { OnOk result (Adds self.old (written_line origin (line.now ++ end.now))
            self.new) }
        ensures trouble { IfErr result (Fails self.old (written_line origin
            (line.now ++ end.now))) }
    {
        if !self.has_room(line.len() + end.len()) {
            let place = IncludePlace {
                file: origin.file,
                line: origin.line,
                column: 1,
            };
            return Err(fault(place, IncludeFaultKind::IncludeSize));
        }
        self.text.push_str(line)?;
        self.text.push_str(end)?;
        self.lines.push(origin)?;
        Ok(())
    }

    /// Whether the text may have some more bytes.
    fn has_room(&self, count: usize) -> bool
        ensures { result ≡ nat_le (length (string_bytes self.now.text) + count) most_text }
    {
        match self.text.as_str().len().checked_add(count) {
            Some(length) => length <= MOST_TEXT,
            None => false,
        }
    }
}

impl<'a> Scope<'a> {
    /// The index of the file that an include line includes.
    #[tactic(auto, unfolding(crate::specs::Including::include_items))]
    fn file_in(&self, alloc: Global, origin: LineOrigin, line: &str) -> Result<usize, IncludeError>
        ensures index { IfOk result (λ index. (inner : Inner)
            → include_items inner (scope_of self.now) origin line.now
            ≡ inner (scope_of self.now) (place_in origin line.now) index) }
        ensures trouble { IfErr result (λ error. IfSome (trouble_of error) (λ trouble.
            (inner : Inner) → include_items inner (scope_of self.now) origin line.now
            ≡ Err trouble ∷ [])) }
    {
        let place = place_in(origin, line);
        let Some(name) = name_in(line) else {
            return Err(fault(place, IncludeFaultKind::BadInclude));
        };
        let path = source_path(alloc, name_at(self.files, origin.file), name)?;
        self.file_at(place, path)
    }

    /// The index of the file with a name.
    fn file_at(&self, place: IncludePlace, path: String) -> Result<usize, IncludeError>
        ensures index { IfOk result (λ index. (inner : Inner)
            → path_items inner (scope_of self.now) place (string_bytes path)
            ≡ inner (scope_of self.now) place index) }
        ensures trouble { IfErr result (λ error. IfSome (trouble_of error) (λ trouble.
            (inner : Inner) → path_items inner (scope_of self.now) place (string_bytes path)
            ≡ Err trouble ∷ [])) }
    {
        match index_of(self.files, path.as_str()) {
            Some(index) if self.around.contains(&index) => {
                Err(fault(place, IncludeFaultKind::IncludeCycle))
            }
            Some(index) => Ok(index),
            None if self.files.len() < MOST_FILES => Err(IncludeError::Wanted {
                place,
                name: path,
            }),
            None => Err(fault(place, IncludeFaultKind::IncludeCount)),
        }
    }
}

/// The place of the first token of a line.
fn place_in(origin: LineOrigin, line: &str) -> IncludePlace
    ensures { result ≡ place_in origin line.now }
{
    IncludePlace {
        file: origin.file,
        line: origin.line,
        column: column_of(line.as_bytes()),
    }
}

fn fault(place: IncludePlace, kind: IncludeFaultKind) -> IncludeError
    ensures { result ≡ Fault place kind }
{
    IncludeError::Fault { place, kind }
}
