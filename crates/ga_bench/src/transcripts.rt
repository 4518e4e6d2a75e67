//! Transcripts, whose heads may name their sources, are checked and recorded.
ghost use Rattle.ga_transcript.specs.Record.{Holds};

use crate::reading::{has_bytes, input_named, opened, regular_input};
use crate::reporting::report_on_replaced;
use crate::saved_files::{PutFault, put};
use ga_include::{is_below, source_path};
use ga_input::{InputFault, Reads, ServeError, Writes, read_input, write_output};
use ga_jobs::{Ending, Job, ending_of, serve_file, status};
use ga_messages::ShownText;
use ga_replays::record::replacement;
use ga_replays::{FileReport, Sourced, fault_in_source, source_named};
use ga_transcript::{Unmet, find_unmet};
use std::io::ErrorKind::{NotFound, OutOfMemory};
use std::io::{Read, Write};
use std::rt::Files;
use std::thread::Threads;
use std::time::Clock;
use std::{fs, io, str};

/// Where a source may lie that a transcript names.
#[derive(Clone, Copy)]
pub enum Sources {
    /// In the folder of the transcript, or below.
    Below,
    Anywhere,
}

impl Sources {
    pub fn of_flag(is_any: bool) -> Sources {
        if is_any {
            Sources::Anywhere
        } else {
            Sources::Below
        }
    }
}

/// A transcript whose head names its source, with the file of that source.
#[derive(Drop)]
pub struct SourcedFile {
    pub transcript: Sourced,
    /// The path of the source.
    path: String,
    /// The bytes of the source.
    source: Vec<u8>,
}

impl SourcedFile {
    /// Whether the file with a name is that of the source: it has its path, or its bytes.
    pub fn has_source<Rt: AllocGlobal + Files>(&self, rt: &Rt, name: &str) -> bool {
        self.path.as_str() == name || has_bytes(rt, name, &self.source)
    }
}

/// The transcript of an input that comes from the file with a name, and whose head names a source;
/// or none, if it names none.
pub fn sourced<Rt: AllocGlobal + Files>(
    rt: &Rt,
    file: &str,
    named: Option<&str>,
    sources: Sources,
    input: &[u8],
) -> Result<Option<SourcedFile>, ServeError> {
    let alloc = rt.alloc();
    let (Some(name), Ok(text)) = (named, str::from_utf8(input)) else {
        return Ok(None);
    };
    let path = source_path(alloc, file, name)?;
    match source_input(rt, file, name, path.as_str(), sources) {
        Ok(source) => Ok(Some(SourcedFile {
            transcript: Sourced::new(alloc, text, path.as_str(), &source)?,
            path,
            source,
        })),
        Err(fault) => Err(fault_in_source(alloc, path.as_str(), fault)?),
    }
}

/// The bytes of the source that the file with a name names, if it lies where it may.
fn source_input<Rt: AllocGlobal + Files>(
    rt: &Rt,
    file: &str,
    name: &str,
    path: &str,
    sources: Sources,
) -> Result<Vec<u8>, ServeError> {
    match sources {
        Sources::Below if !is_below(name) || leads_out(rt, file, path)? => {
            Err(ServeError::Input(InputFault::Outside))
        }
        _ => regular_input(rt, path),
    }
}

/// Whether links lead from a path to a place outside of the folder of the file with a name, or to
/// one whose name is no text. A path to nothing leads nowhere.
fn leads_out<Rt: AllocGlobal + Files>(rt: &Rt, file: &str, path: &str) -> Result<bool, ServeError> {
    let place = match fs::canonicalize(rt, path) {
        Ok(place) => place,
        Err(error) => {
            return match error.kind() {
                NotFound => Ok(false),
                OutOfMemory => Err(ServeError::Memory),
                _ => Ok(true),
            };
        }
    };
    let folder = source_path(rt.alloc(), file, ".")?;
    match fs::canonicalize(rt, folder.as_str()) {
        Ok(folder) => Ok(!place.starts_with(folder.as_str())),
        Err(error) if error.kind() == OutOfMemory => Err(ServeError::Memory),
        Err(_) => Ok(true),
    }
}

/// Serves the job `check` or `record` for the file with a name, whose head may name its source.
pub fn serve_transcript<Rt: AllocGlobal + Threads + Clock + Sync + Files, W: Write>(
    rt: &Rt,
    writer: &mut W,
    name: &str,
    job: &Job,
) -> Result<Ending, ServeError> {
    let alloc = rt.alloc();
    let input = read_input(alloc, &mut opened(rt, name)?, &mut Reads::default())?;
    let sources = Sources::of_flag(job.takes_any_source());
    let Some(found) = sourced(rt, name, source_named(&input), sources, &input)? else {
        return serve_file(rt, writer, job, &input);
    };
    let text = match job {
        Job::Record { .. } => found.transcript.record(alloc)?,
        _ => found.transcript.check(alloc)?,
    };
    write_output(writer, text.as_bytes(), &mut Writes::default())?;
    Ok(ending_of(job, text.as_str()))
}

/// Checks several files, one after another. Answers the exit status: 1 if one of them failed.
pub fn check_status<Rt: AllocGlobal + Print + Eprint + Files, R: Read>(
    rt: &Rt,
    reader: &mut R,
    files: &[String],
    sources: Sources,
) -> u8 {
    match check_files(rt, reader, &mut io::writer(rt), files, sources) {
        Ok(true) => 0,
        Ok(false) => 1,
        Err(fault) => {
            let _ = eprintln!(rt; "ga-bench: {fault}");
            status(&Err(fault))
        }
    }
}

/// Checks several files, and writes the report on each, and then how many passed and failed.
/// Answers whether all passed.
fn check_files<Rt: AllocGlobal + Files, R: Read, W: Write>(
    rt: &Rt,
    reader: &mut R,
    writer: &mut W,
    files: &[String],
    sources: Sources,
) -> Result<bool, ServeError> {
    let mut passed = 0;
    for file in files {
        let report = report_on(rt, reader, file.as_str(), sources)?;
        write_output(writer, report.text.as_bytes(), &mut Writes::default())?;
        if report.passes {
            passed += 1;
        }
    }
    let failed = files.len() - passed;
    let counts = format!(in rt.alloc(); "{passed} passed, {failed} failed\n")?;
    write_output(writer, counts.as_bytes(), &mut Writes::default())?;
    Ok(failed == 0)
}

/// The report on the file with a name, also if it can't be read.
fn report_on<Rt: AllocGlobal + Files, R: Read>(
    rt: &Rt,
    reader: &mut R,
    name: &str,
    sources: Sources,
) -> Result<FileReport, ServeError> {
    match read_report(rt, reader, name, sources) {
        Ok(report) => Ok(report),
        Err(ServeError::Memory) => Err(ServeError::Memory),
        Err(fault) => Ok(FileReport::refused(rt.alloc(), name, &fault)?),
    }
}

/// The report on the file with a name, or why it or its source can't be read.
fn read_report<Rt: AllocGlobal + Files, R: Read>(
    rt: &Rt,
    reader: &mut R,
    name: &str,
    sources: Sources,
) -> Result<FileReport, ServeError> {
    let input = input_named(rt, reader, name)?;
    let named = match name {
        "-" => None,
        _ => source_named(&input),
    };
    match sourced(rt, name, named, sources, &input)? {
        Some(found) => FileReport::of_sourced(rt.alloc(), name, &found.transcript),
        None => FileReport::new(rt.alloc(), name, &input),
    }
}

/// What was done with a file that is recorded.
#[derive(Drop)]
struct Rewritten {
    shown: ShownText,
    /// The line for it.
    line: String,
    /// The replies of its recording to expectations that aren't met.
    unmet: Option<Unmet>,
}

/// Replaces files by their recordings, and names each with what was done, or why it is left as it
/// is. Answers the exit status: 1 if one of them has a fault, or expectations that aren't met.
pub fn rewrite_status<Rt: AllocGlobal + Print + Eprint + Files>(
    rt: &Rt,
    files: &[String],
    sources: Sources,
) -> u8 {
    let mut worst = 0;
    for file in files {
        let status = match rewrite(rt, file.as_str(), sources) {
            Ok(done) => print_done(rt, &done),
            Err(fault) => report_on_replaced(rt, file.as_str(), fault),
        };
        worst = status.max(worst);
    }
    worst
}

/// Prints what was done with a file. Answers the exit status: if standard output can't be written,
/// that is reported, and what was done all the same.
fn print_done<Rt: Print + Eprint>(rt: &Rt, done: &Rewritten) -> u8 {
    let Rewritten { shown, line, unmet } = done;
    let written = write_output(&mut io::writer(rt), line.as_bytes(), &mut Writes::default());
    if written.is_err() {
        let _ = eprint!(rt; "ga-bench: {line}");
    }
    if let Some(unmet) = unmet {
        let _ = eprintln!(rt; "ga-bench: {shown}: {unmet}");
    }
    match written {
        Ok(()) => u8::from(unmet.is_some()),
        Err(fault) => {
            let _ = eprintln!(rt; "ga-bench: {fault}");
            status(&Err(fault))
        }
    }
}

/// Replaces a file by its recording, and answers what was done. A file that is its own recording is
/// left as it is.
fn rewrite<Rt: AllocGlobal + Files>(
    rt: &Rt,
    name: &str,
    sources: Sources,
) -> Result<Rewritten, PutFault> {
    let alloc = rt.alloc();
    let shown = ShownText::of_name(alloc, name)?;
    // Before the file is replaced, so that nothing is refused behind it.
    let recorded = format!(in alloc; "{shown}: recorded\n")?;
    let same = format!(in alloc; "{shown}: same\n")?;
    let (is_new, unmet) = replaced(rt, name, sources)?;
    let line = if is_new { recorded } else { same };
    Ok(Rewritten { shown, line, unmet })
}

/// Replaces a file by its recording. Answers whether it isn't its recording already, and the
/// replies of its recording to expectations that aren't met.
fn replaced<Rt: AllocGlobal + Files>(
    rt: &Rt,
    name: &str,
    sources: Sources,
) -> Result<(bool, Option<Unmet>), PutFault> {
    let alloc = rt.alloc();
    let input = regular_input(rt, name)?;
    let recording = match sourced(rt, name, source_named(&input), sources, &input)? {
        Some(found) => {
            let recording = found.transcript.replacement(alloc)?;
            if let Some(recording) = &recording {
                put(rt, name, recording.as_str())?;
            }
            recording
        }
        None => {
            let recording = replacement(alloc, &input)?;
            if let Some(recording) = &recording {
                save(rt, name, recording.as_str())?;
            }
            recording
        }
    };
    Ok(match (&recording, str::from_utf8(&input)) {
        (Some(recording), _) => (true, find_unmet(recording.as_str())),
        (None, Ok(text)) => (false, find_unmet(text)),
        (None, Err(_)) => (false, None),
    })
}

/// Replaces a file by a transcript, in one step.
fn save<Rt: AllocGlobal + Files>(rt: &Rt, name: &str, transcript: &str) -> Result<(), PutFault>
    requires { Holds transcript.now }
{
    put(rt, name, transcript)
}
