//! What `check` of several files reports of each of them.
ghost use Rattle.std.specs.Prelude.{◌≡◌, IfOk, string_bytes};
ghost use Rattle.ga_transcript.specs.Compare.{comparison_view};
ghost use Rattle.ga_input.specs.Fault.{Answers};
ghost use Rattle.ga_replays.specs.FileReport.{IsComparedIn, IsFileReport, IsRefused, IsSourcedReport, found_text};
ghost use Rattle.ga_messages.specs.Shown.{shown_name};

use crate::sourced::Sourced;
use ga_input::{ServeError, input_text, shown_transcript_fault};
use ga_messages::{shown_lines, shown_name};
use ga_transcript::{Comparison, compare};
use std::alloc::{AllocError, Global};

/// What is reported of one of several files, and whether its transcript passes the check.
#[derive(PartialEq, Eq, Drop)]
pub struct FileReport {
    /// Lines that each name the file, or have a line of a reply. Each ends with LF.
    pub text: String,
    pub passes: bool,
}

impl FileReport {
    /// The report on a file with a name whose bytes are the transcript: each difference, and then a
    /// line with `same` and the number of commands, or how many differ; or a line with the
    /// transcript's first fault, and the lines that are shown of it. Fails only as
    /// [`ServeError::Memory`], when out of memory. (The texts are this project's own: profile.)
    pub fn new(alloc: Global, name: &str, input: &[u8]) -> Result<FileReport, ServeError>
        ensures { Answers (λ report. report) (IsFileReport name.now input.now) result }
    {
        let shown = shown_name(alloc, name)?;
        match compared(alloc, shown.as_str(), input) {
            Ok(found) => Ok(FileReport {
                text: found_text(alloc, shown.as_str(), &found)?,
                passes: found.differences == 0,
            }),
            Err(fault) => match fault {
                ServeError::Memory => Err(ServeError::Memory),
                _ => Ok(FileReport::refused(alloc, name, &fault)?),
            },
        }
    }

    /// The same report on a file with a name whose head names its source: lines are those of the
    /// file.
    pub fn of_sourced(
        alloc: Global,
        name: &str,
        sourced: &Sourced,
    ) -> Result<FileReport, ServeError>
        ensures { Answers (λ report. report) (IsSourcedReport name.now sourced.now) result }
    {
        let shown = shown_name(alloc, name)?;
        match compared(alloc, "", sourced.whole().as_bytes()) {
            Ok(mut found) => {
                found.report = sourced.report_in_file(alloc, &shown, &found.report)?;
                Ok(FileReport {
                    text: found_text(alloc, shown.as_str(), &found)?,
                    passes: found.differences == 0,
                })
            }
            Err(fault) => match fault {
                ServeError::Memory => Err(ServeError::Memory),
                _ => Ok(FileReport::refused(alloc, name, &sourced.fault_in_file(fault))?),
            },
        }
    }

    /// The report on a file with a name that is refused with this fault. Fails only when out of
    /// memory.
    pub fn refused(alloc: Global, name: &str, fault: &ServeError) -> Result<FileReport, AllocError>
        ensures { IfOk result (IsRefused name.now) }
    {
        let name = shown_name(alloc, name)?;
        let shown = fault.to_string(alloc)?;
        let text = format!(in alloc; "{name}: {shown}\n")?;
        Ok(FileReport {
            text,
            passes: false,
        })
    }
}

/// What is found of all commands of an input, which is a transcript in a file with a name.
fn compared(alloc: Global, name: &str, input: &[u8]) -> Result<Comparison, ServeError>
    ensures { Answers comparison_view (IsComparedIn name.now input.now) result }
{
    let text = input_text(input)?;
    match compare(alloc, name, text) {
        Ok(found) => Ok(found),
        Err(error) => Err(shown_transcript_fault(alloc, text, error)?),
    }
}

/// The text of what is found: the report on the differences, and a line with the counts.
fn found_text(alloc: Global, name: &str, found: &Comparison) -> Result<String, AllocError>
    ensures { IfOk result (λ text.
        string_bytes text ≡ found_text name.now (comparison_view found.now)) }
{
    let Comparison {
        commands,
        differences,
        report,
    } = found;
    if *differences == 0 {
        return format!(in alloc; "{name}: same {commands}\n");
    }
    let report = shown_lines(alloc, report.as_str())?;
    format!(in alloc; "{report}{name}: {differences} of {commands} differ\n")
}
