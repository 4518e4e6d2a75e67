//! The session that an input opens, to be talked with at the prompt.
ghost use Rattle.std.specs.Prelude.{◌≡◌, ◌++◌, IfOk, OnOk, string_bytes};
ghost use Rattle.ga_input.specs.Fault.{Answers};
ghost use Rattle.ga_input.specs.Session.{IsOpenedAs, IsSession, IsSessionOutput, ended_lines, head_text, source_head};

use crate::fault::ServeError;
use crate::loading::{Loading, is_head, source_chip};
use crate::text::input_text;
use crate::transcript_fault::shown_transcript_fault;
use ga_debug::Pieces;
use ga_transcript::{Live, without_line_end};
use std::alloc::{AllocError, Global};
use std::fmt::Write;

/// What is written for the session of an input if no line is typed: nothing.
pub fn output(alloc: Global, loading: &Loading, input: &[u8]) -> Result<String, ServeError>
    ensures { Answers string_bytes (IsSessionOutput loading.now input.now) result }
{
    let _live = open_session(alloc, loading, input)?;
    Ok(String::new(alloc))
}

/// The session that an input opens: a transcript, or the head of a session, whose commands are
/// done; or source text. Or the first fault. `Memory` comes only when out of memory. (The sessions
/// are this project's own: profile.)
pub fn open_session(alloc: Global, loading: &Loading, input: &[u8]) -> Result<Live, ServeError>
    ensures { Answers (λ live. live) (IsSession loading.now input.now) result }
{
    let text = input_text(input)?;
    if !is_head(loading, text) {
        // for its faults, at their places in the source text
        let _chip = source_chip(alloc, loading, text)?;
    }
    let head = head_text(alloc, loading, text)?;
    opened(alloc, head.as_str())
}

/// The session of a transcript.
fn opened(alloc: Global, text: &str) -> Result<Live, ServeError>
    ensures { Answers (λ live. live) (IsOpenedAs text.now) result }
{
    match Live::open(alloc, text) {
        Ok(live) => Ok(live),
        Err(error) => Err(shown_transcript_fault(alloc, text, error)?),
    }
}

/// The transcript of an input: itself, or the head that loads a source text.
fn head_text(alloc: Global, loading: &Loading, input: &str) -> Result<String, AllocError>
    ensures { IfOk result (λ text. string_bytes text ≡ head_text loading.now input.now) }
{
    if is_head(loading, input) {
        return String::from_str(alloc, input);
    }
    let mut text = String::new(alloc);
    push_source_head(alloc, &mut text, loading, input)?;
    text.push_str("go\n")?;
    Ok(text)
}

/// Adds the head that loads a source text, without its line `go`.
pub fn push_source_head(
    alloc: Global,
    text: &mut String,
    loading: &Loading,
    source: &str,
) -> Result<(), AllocError>
    ensures { OnOk result (string_bytes text.new
        ≡ string_bytes text.old ++ source_head loading.now source.now) }
{
    text.push_str("profile 2\n")?;
    match loading {
        Loading::Any | Loading::Place => text.push_str("place\n")?,
        Loading::Route(names) => writeln!(text, "route {names}")?,
    }
    let source = without_line_end(alloc, source)?;
    push_lines(text, Pieces::new(source.as_str(), '\n'))
}

/// Adds lines of a source text, each ended by LF. A line `go` would end it: it gets a space.
pub fn push_lines(text: &mut String, lines: Pieces<'_>) -> Result<(), AllocError>
    ensures { OnOk result (string_bytes text.new
        ≡ string_bytes text.old ++ ended_lines lines.entry) }
{
    for line in lines {
        text.push_str(line)?;
        text.push_str(if line == "go" { " \n" } else { "\n" })?;
    }
    Ok(())
}
