//! The sections of a text.
ghost use Rattle.std.specs.Prelude.{◌≡◌, ◌≤◌, ◌++◌, IfOk, OnOk, length, slice_range};
ghost use Rattle.ga_faults.specs.Sections.{begins_section, has_line, if_begun, kept_line, section_starts, sections_at, up_to};

use crate::reading::Reading;
use ga_source::{Token, tokens};
use std::alloc::{AllocError, Global};

/// The lines of a section, counted from 1.
#[derive(Clone, Copy)]
pub(crate) struct Section {
    /// The line with which it begins.
    pub(crate) first: usize,
    /// The line with which the next section begins, if there is one.
    pub(crate) next: Option<usize>,
}

impl Section {
    /// The lines of a text up to the end of this section.
    pub(crate) fn lines_in<'l, 'a>(self, lines: &'l [&'a str]) -> &'l [&'a str]
        ensures { result.now ≡ up_to self.next lines.now }
    {
        match self.next {
            Some(next) => &lines[..next.saturating_sub(1).min(lines.len())],
            None => lines,
        }
    }

    /// Whether it has a line.
    pub(crate) fn has_line(self, line: usize) -> bool
        ensures { result ≡ has_line line self }
    {
        self.first <= line
            && match self.next {
                Some(next) => line < next,
                None => true,
            }
    }

    /// What the part of this section has for a line. The first section begins at the line `head`.
    pub(crate) fn kept_line(self, head: usize, line: usize, text: &str) -> &str
        ensures { result.now ≡ kept_line head self.first line text.now }
    {
        if line < head || self.first <= line {
            text
        } else {
            ""
        }
    }
}

/// The sections that begin at these lines.
pub(crate) fn sections_at(alloc: Global, starts: &[usize]) -> Result<Vec<Section>, AllocError>
    ensures { IfOk result (λ sections. sections.items ≡ sections_at starts.now) }
{
    let mut sections = Vec::new(alloc);
    for index in 0..starts.len() {
        sections.push(Section {
            first: starts[index],
            next: starts.get(index + 1).copied(),
        })?;
    }
    Ok(sections)
}

/// The lines at which the sections of a text begin.
pub(crate) fn section_starts(alloc: Global, text: &str) -> Result<Vec<usize>, AllocError>
    ensures { IfOk result (λ starts. starts.items ≡ section_starts text.now) }
{
    let tokens = tokens(alloc, text)?;
    let mut starts = Vec::new(alloc);
    let mut reading = Reading::Definition;
    let mut before = 0;
    for token in &tokens {
        let written = token_text(text, *token);
        reading = reading.behind(written);
        push_start(&mut starts, reading, before, written, token.line)?;
        before = token.line;
    }
    Ok(starts)
}

/// What a token of a text is written as.
pub(crate) fn token_text(text: &str, token: Token) -> &[u8]
    requires { (token.start ≤ token.end) × (token.end ≤ length text.now) }
    ensures { result.now ≡ slice_range text.now token.start token.end }
{
    &text.as_bytes()[token.start..token.end]
}

/// Adds the line of a token, if it begins a section.
fn push_start(
    starts: &mut Vec<usize>,
    behind: Reading,
    before: usize,
    text: &[u8],
    line: usize,
) -> Result<(), AllocError>
    ensures { OnOk result (starts.new.items ≡ starts.old.items
        ++ if_begun (begins_section behind before text.now line) line) }
{
    if begins_section(behind, before, text, line) {
        starts.push(line)?;
    }
    Ok(())
}

/// Whether a token begins a section. It is on a line, and the token before it on another one; and
/// what is behind it is known.
fn begins_section(behind: Reading, before: usize, text: &[u8], line: usize) -> bool
    ensures { result ≡ begins_section behind before text.now line }
{
    match behind {
        Reading::Rest => text == b"node".as_slice() && before < line,
        _ => false,
    }
}
