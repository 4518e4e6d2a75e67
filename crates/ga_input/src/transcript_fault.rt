ghost use Rattle.std.specs.Prelude.{◌≡◌, IfOk};
ghost use Rattle.ga_transcript.specs.Check.{fault_of};
ghost use Rattle.ga_input.specs.TranscriptFault as spec;
ghost use Rattle.ga_input.specs.TranscriptFault.{shown_head_fault, shown_transcript_fault};

use crate::fault::{OutputFault, ServeError, TextFault};
use crate::meaning::head_meaning;
use crate::text_fault::shown_fault;
use ga_asm::{AsmError, TextError};
use ga_debug::ReplayError;
use ga_explain::meaning;
use ga_messages::{ShownText, numbered_line, whole_line};
use ga_source::SourceError;
use ga_transcript::TranscriptError;
use std::alloc::{AllocError, Global};

/// The fault of a transcript, with the lines that are shown of it. Fails only when out of memory.
pub fn shown_transcript_fault(
    alloc: Global,
    text: &str,
    error: TranscriptError,
) -> Result<ServeError, AllocError>
    ensures { IfOk result (λ fault. fault ≡ shown_transcript_fault text.now (fault_of error)) }
{
    match error {
        TranscriptError::Head(error) => shown_head_fault(alloc, text, error),
        TranscriptError::EarlyReply(line) => {
            let fault = TextFault::EarlyReply(line);
            let meaning = meaning(alloc, "EarlyReply")?;
            let shown = ShownText::new(alloc, text, line as usize, None, meaning)?;
            Ok(ServeError::Shown { fault, shown })
        }
        TranscriptError::Differs(line, lines) => {
            let fault = TextFault::Differs(line);
            let shown = ShownText::of_lines(alloc, &lines)?;
            Ok(ServeError::Shown { fault, shown })
        }
        TranscriptError::Failed(unmet) => {
            let fault = TextFault::Failed(unmet);
            let shown = ShownText::of_lines(alloc, numbered_line(text, unmet.first as usize))?;
            Ok(ServeError::Shown { fault, shown })
        }
        TranscriptError::TooLong => Ok(ServeError::Output(OutputFault::TooLong)),
        TranscriptError::Memory => Ok(ServeError::Memory),
    }
}

/// The fault of a head, with the lines that are shown of the text.
pub fn shown_head_fault(
    alloc: Global,
    text: &str,
    error: ReplayError,
) -> Result<ServeError, AllocError>
    ensures { IfOk result (λ fault. fault ≡ shown_head_fault text.now error) }
{
    match error {
        ReplayError::Source(fault) => {
            shown_fault(
                alloc,
                text,
                TextError::Source(source_behind_head(text, &fault)),
            )
        }
        ReplayError::Asm(fault) => {
            shown_fault(alloc, text, TextError::Asm(asm_behind_head(&fault)))
        }
        _ => {
            let line = head_line(text, &error);
            let meaning = head_meaning(alloc, text, &error)?;
            let shown = ShownText::new(alloc, text, line, None, meaning)?;
            let fault = TextFault::Replay(error);
            Ok(ServeError::Shown { fault, shown })
        }
    }
}

/// A fault of source lines, with its place in the whole text. One at their end is reported behind
/// the last of them.
fn source_behind_head(text: &str, error: &SourceError) -> SourceError
    ensures { result ≡ spec.reported_at text.now error.now (spec.behind_head error.now.line) }
{
    let line = behind_head(error.line);
    if is_source_end(text, line, error.column) {
        let last = numbered_line(text, line - 1);
        return SourceError {
            kind: error.kind,
            line: line - 1,
            column: last.chars().count() + 1,
        };
    }
    SourceError {
        kind: error.kind,
        line,
        column: error.column,
    }
}

/// Whether a place is the end of the source lines: the line `go` begins there, and there is a
/// source line before it.
fn is_source_end(text: &str, line: usize, column: usize) -> bool
    ensures { result ≡ spec.is_source_end text.now line column }
{
    column == 1 && line > 3 && whole_line(text, line) == "go"
}

/// A fault of the program of source lines, with its line of the whole text.
fn asm_behind_head(error: &AsmError) -> AsmError
    ensures { result ≡ record error.now { line = spec.behind_head error.now.line } }
{
    AsmError {
        kind: error.kind,
        node: error.node,
        line: behind_head(error.line),
        column: error.column,
    }
}

/// The number of a source line in the whole text, which has two lines before it.
fn behind_head(line: usize) -> usize
    ensures { result ≡ spec.behind_head line }
{
    if line < usize::MAX - 1 {
        line + 2
    } else {
        line
    }
}

/// The line at which a fault of a head or of a replay text is shown.
pub fn head_line(text: &str, error: &ReplayError) -> usize
    ensures { result ≡ spec.head_line text.now error.now }
{
    match error {
        ReplayError::BadProfile => 1,
        ReplayError::NoGo => text.lines().count(),
        ReplayError::Bad(line, _) | ReplayError::Differs(line) => *line as usize,
        _ => 2,
    }
}
