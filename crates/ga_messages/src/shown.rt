ghost use Rattle.std.specs.Prelude.{◌≡◌, ℕ, IfOk, List, Some, bytes_eq, string_bytes};
ghost use Rattle.std.proofs.Common.{rules};
ghost use Rattle.std.specs.Cmp.Rules.{comparing};
ghost use Rattle.ga_messages.specs.Shown.{is_undrawn, left_out, numbered_line, line_under, shown_char, shown_line, shown_lines, shown_name, shown_text, whole_line};

use std::alloc::{AllocError, Global};
use std::fmt;
use std::marker::Model;

/// The most characters of a line that are shown.
const WIDTH: usize = 100;

/// The last column up to which a line is shown from its first character on.
const LAST_COLUMN: usize = 80;

/// How many characters are shown before a column past that one.
const IN_FRONT: usize = 40;

/// What is shown of a text behind the line that names its fault: the line of the fault's place, a
/// caret under its column, and the fault's meaning, with LF between them and none at the end. A
/// contract sees it as its bytes.
#[derive(Debug, Drop)]
pub struct ShownText {
    text: String,
}

impl Model for ShownText {
    ghost use Rattle.std.specs.Prelude.{ℕ, List, string_bytes};

    ghost Value = { List ℕ };

    ghost view = { λ shown. string_bytes shown.text };
}

impl ShownText {
    /// Lines of another kind, with LF between them. Fails only when out of memory.
    pub fn of_lines(alloc: Global, lines: &str) -> Result<ShownText, AllocError>
        ensures { IfOk result (λ shown. shown ≡ shown_lines lines.now) }
    {
        let text = shown_lines(alloc, lines)?;
        Ok(ShownText { text })
    }

    /// The name of a file, in one line. Fails only when out of memory.
    pub fn of_name(alloc: Global, name: &str) -> Result<ShownText, AllocError>
        ensures { IfOk result (λ shown. shown ≡ shown_name name.now) }
    {
        let text = shown_name(alloc, name)?;
        Ok(ShownText { text })
    }

    /// The text.
    pub fn as_str(&self) -> &str
        ensures { result.now ≡ self.now }
    {
        self.text.as_str()
    }

    /// What is shown at a line of a text, from 1, and at a column of it, from 1, which counts
    /// characters. Without a column there is no caret. Fails only when out of memory.
    #[tactic(auto, unfolding(crate::specs::Shown::shown_text))]
    pub fn new(
        alloc: Global,
        text: &str,
        line: usize,
        column: Option<usize>,
        meaning: &str,
    ) -> Result<ShownText, AllocError>
        ensures { IfOk result (λ shown. shown ≡ shown_text text.now line column meaning.now) }
    {
        let found = numbered_line(text, line);
        match column {
            Some(column) => {
                let skipped = left_out(column);
                let shown = shown_line(alloc, found, skipped)?;
                let under = line_under(alloc, found, skipped, column)?;
                let text = format!(in alloc; "  {shown}\n  {under}^\n{meaning}")?;
                Ok(ShownText { text })
            }
            None => {
                let shown = shown_line(alloc, found, 0)?;
                let text = format!(in alloc; "  {shown}\n{meaning}")?;
                Ok(ShownText { text })
            }
        }
    }
}

/// Writes the text.
impl fmt::Display for ShownText {
    ghost output = { λ shown. Some shown };

    fn fmt<W: fmt::Write>(&self, f: &mut fmt::Formatter<W>) -> fmt::Result {
        f.write_str(&self.text)
    }
}

impl PartialEq for ShownText {
    ghost eq = { λ one other. bytes_eq one other };

    ghost laws = { Prim.search (comparing, rules) };

    fn eq(&self, other: &ShownText) -> bool {
        self.text == other.text
    }
}

impl Eq for ShownText {
    ghost laws = { Prim.search (comparing, rules) };
}

/// The line of a text with this number, from 1; an empty one if the text has none.
pub fn numbered_line(text: &str, line: usize) -> &str
    ensures { result.now ≡ numbered_line text.now line }
{
    match text.lines().nth(line.saturating_sub(1)) {
        Some(found) => found,
        None => "",
    }
}

/// The same line up to the LF: a CR before it is part of the line.
pub fn whole_line(text: &str, line: usize) -> &str
    ensures { result.now ≡ whole_line text.now line }
{
    match text.split('\n').nth(line.saturating_sub(1)) {
        Some(found) => found,
        None => "",
    }
}

/// How many characters at the line's start are left out, so that the column is shown.
fn left_out(column: usize) -> usize
    ensures { result ≡ left_out column }
{
    if column <= LAST_COLUMN {
        0
    } else {
        column - 1 - IN_FRONT
    }
}

/// A character as it is shown: as a blank if a terminal would obey it, or draw nothing.
pub fn shown_char(c: char) -> char
    ensures { result ≡ shown_char c }
{
    if (c.is_control() && c != '\t') || is_undrawn(c) {
        ' '
    } else {
        c
    }
}

/// Whether a character has no width, ends a line, or sets the direction of writing.
fn is_undrawn(c: char) -> bool
    ensures { result ≡ is_undrawn c }
{
    matches!(
        c,
        '\u{200B}'..='\u{200F}'
            | '\u{2028}'..='\u{202E}'
            | '\u{2066}'..='\u{2069}'
            | '\u{061C}'
            | '\u{FEFF}'
    )
}

/// The characters of a line that are shown, without the first `skipped` ones.
fn shown_line(alloc: Global, line: &str, skipped: usize) -> Result<String, AllocError>
    ensures { IfOk result (λ shown. string_bytes shown ≡ shown_line line.now skipped) }
{
    line.chars()
        .skip(skipped)
        .take(WIDTH)
        .map(shown_char)
        .collect(alloc)
}

/// Lines with LF between them, each character of them as it is shown.
#[tactic(auto, unfolding(crate::specs::Shown::shown_lines))]
pub fn shown_lines(alloc: Global, lines: &str) -> Result<String, AllocError>
    ensures { IfOk result (λ shown. string_bytes shown ≡ shown_lines lines.now) }
{
    lines
        .chars()
        .map(|c| if c == '\n' { c } else { shown_char(c) })
        .collect(alloc)
}

/// The name of a file as it is shown, in one line. Fails only when out of memory.
pub fn shown_name(alloc: Global, name: &str) -> Result<String, AllocError>
    ensures { IfOk result (λ shown. string_bytes shown ≡ shown_name name.now) }
{
    name.chars().map(shown_char).collect(alloc)
}

/// The blanks and tabs under these characters before the caret.
fn line_under(
    alloc: Global,
    line: &str,
    skipped: usize,
    column: usize,
) -> Result<String, AllocError>
    ensures { IfOk result (λ under. string_bytes under ≡ line_under line.now skipped column) }
{
    line.chars()
        .skip(skipped)
        .take(column.saturating_sub(1).saturating_sub(skipped))
        .map(|c| if c == '\t' { '\t' } else { ' ' })
        .collect(alloc)
}
