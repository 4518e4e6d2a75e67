//! The text of a file with those that it includes, or with the source that it names.
use crate::reading::{has_bytes, input_named, regular_input};
use crate::transcripts::{SourcedFile, Sources, sourced};
use ga_diagnostics::Lines;
use ga_include::{
    IncludeError, IncludeFaultKind, IncludePlace, Included, SourceFile, expand_includes,
    has_includes,
};
use ga_input::{
    IncludeFault, IncludeRefusal, InputFault, Loading, ServeError, is_session, shown_include_fault,
};
use ga_jobs::{Ending, Job};
use ga_replays::{Sourced, session_source};
use std::alloc::{AllocError, Global};
use std::io::Read;
use std::rt::Files;
use std::str;

/// The most files of a text.
const MOST_FILES: usize = 64;

/// The text of a file or of standard input. A session may name its source.
#[derive(Drop)]
pub struct FileText<'a> {
    written: Written<'a>,
    /// The session with the lines of the source that it names.
    sourced: Option<SourcedFile>,
}

/// The bytes of a file or of standard input, or the text of a file that includes others.
#[derive(Drop)]
enum Written<'a> {
    Alone {
        /// The file's name; `-` is standard input.
        name: &'a str,
        input: Vec<u8>,
    },
    Including {
        files: Vec<SourceFile>,
        made: Included,
    },
}

impl FileText<'_> {
    /// The bytes that a job reads: if a session names its source, those of the whole text.
    pub fn bytes(&self) -> &[u8] {
        match &self.sourced {
            Some(found) => found.transcript.whole().as_bytes(),
            None => self.written.bytes(),
        }
    }

    /// The bytes as they were written: a session has the name of its source.
    pub fn written(&self) -> &[u8] {
        self.written.bytes()
    }

    /// The session whose head names its source.
    pub fn transcript(&self) -> Option<&Sourced> {
        match &self.sourced {
            Some(found) => Some(&found.transcript),
            None => None,
        }
    }

    /// An outcome for the bytes that a job reads, with a fault by the lines that were written.
    pub fn as_written(&self, outcome: Result<Ending, ServeError>) -> Result<Ending, ServeError> {
        match (outcome, self.transcript()) {
            (Err(fault), Some(transcript)) => Err(transcript.fault_in_file(fault)),
            (outcome, _) => outcome,
        }
    }

    /// Whether the file with a name is one of these: it has the name of one, or the bytes.
    /// Standard input has no name.
    pub fn has_file<Rt: AllocGlobal + Files>(&self, rt: &Rt, name: &str) -> bool {
        match &self.written {
            Written::Alone { name: "-", input } => has_bytes(rt, name, input),
            Written::Alone { name: own, input } => *own == name || has_bytes(rt, name, input),
            Written::Including { files, .. } => is_among(rt, name, files),
        }
    }

    /// The same of the source that a session names.
    pub fn has_source<Rt: AllocGlobal + Files>(&self, rt: &Rt, name: &str) -> bool {
        match &self.sourced {
            Some(found) => found.has_source(rt, name),
            None => false,
        }
    }

    /// Where the lines were written.
    pub fn lines(&self) -> Lines<'_> {
        match &self.written {
            Written::Alone { name, .. } => Lines::File(name),
            Written::Including { files, made } => Lines::Files(files, made),
        }
    }
}

impl Written<'_> {
    fn bytes(&self) -> &[u8] {
        match self {
            Written::Alone { input, .. } => input,
            Written::Including { made, .. } => made.text.as_bytes(),
        }
    }
}

/// Whether the file with a name is one of some files, or has the bytes of one.
fn is_among<Rt: AllocGlobal + Files>(rt: &Rt, name: &str, files: &[SourceFile]) -> bool {
    for file in files {
        if file.name.as_str() == name || has_bytes(rt, name, file.text.as_bytes()) {
            return true;
        }
    }
    false
}

/// The fault of a file, with its name.
#[derive(Drop)]
pub struct NamedFault {
    pub name: String,
    pub fault: ServeError,
}

/// The text of the file with a name, or of standard input for `-`. Only source text includes files,
/// and only a session names its source.
pub fn file_text<'a, Rt: AllocGlobal + Files, R: Read>(
    rt: &Rt,
    reader: &mut R,
    name: &'a str,
    job: &Job,
) -> Result<FileText<'a>, NamedFault> {
    let written = written_text(rt, reader, name, job)?;
    match sourced_by(rt, name, job, written.bytes()) {
        Ok(sourced) => Ok(FileText { written, sourced }),
        Err(fault) => Err(named(rt.alloc(), name, fault)),
    }
}

/// The session that a job opens by the bytes of the file with a name, if it names its source.
/// Standard input has no folder in which one could lie.
fn sourced_by<Rt: AllocGlobal + Files>(
    rt: &Rt,
    name: &str,
    job: &Job,
    input: &[u8],
) -> Result<Option<SourcedFile>, ServeError> {
    let source = match loading_of(job) {
        Some(loading) if name != "-" => session_source(loading, input),
        _ => None,
    };
    let sources = Sources::of_flag(job.takes_any_source());
    sourced(rt, name, source, sources, input)
}

/// How a job loads a chip, if its input may be a session.
fn loading_of(job: &Job) -> Option<&Loading> {
    match job {
        Job::Talk { loading, .. }
        | Job::Counts { loading, .. }
        | Job::Race { loading, .. }
        | Job::Map { loading, .. }
        | Job::Profile { loading, .. }
        | Job::Trace { loading, .. }
        | Job::Report { loading, .. } => Some(loading),
        _ => None,
    }
}

/// The text of the file with a name, or of standard input for `-`, as it was written.
fn written_text<'a, Rt: AllocGlobal + Files, R: Read>(
    rt: &Rt,
    reader: &mut R,
    name: &'a str,
    job: &Job,
) -> Result<Written<'a>, NamedFault> {
    let input = match input_named(rt, reader, name) {
        Ok(input) => input,
        Err(fault) => return Err(named(rt.alloc(), name, fault)),
    };
    match including(name, job, &input) {
        Some(text) => text_including(rt, name, text),
        None => Ok(Written::Alone { name, input }),
    }
}

/// The input as text, if a job for it includes files.
fn including<'a>(name: &str, job: &Job, input: &'a [u8]) -> Option<&'a str> {
    let is_source = name != "-" && reads_source(job) && !is_session(input);
    match str::from_utf8(input) {
        Ok(text) if is_source && has_includes(text) => Some(text),
        _ => None,
    }
}

/// Whether a job reads source text.
fn reads_source(job: &Job) -> bool {
    !matches!(
        job,
        Job::One { .. }
            | Job::Dis { .. }
            | Job::Replay { .. }
            | Job::Check { .. }
            | Job::Record { .. }
    )
}

/// The text of a file that includes others.
fn text_including<'a, Rt: AllocGlobal + Files>(
    rt: &Rt,
    name: &str,
    text: &str,
) -> Result<Written<'a>, NamedFault> {
    let alloc = rt.alloc();
    let mut files = match files_of(alloc, name, text) {
        Ok(files) => files,
        Err(AllocError) => return Err(named(alloc, name, ServeError::Memory)),
    };
    for _ in 0..MOST_FILES {
        match expand_includes(alloc, &files) {
            Ok(made) => return Ok(Written::Including { files, made }),
            Err(error) => add_wanted(rt, &mut files, error)?,
        }
    }
    // As many files are refused by `expand_includes`.
    Err(named(alloc, name, ServeError::Input(InputFault::TooLong)))
}

/// The list of a file alone.
fn files_of(alloc: Global, name: &str, text: &str) -> Result<Vec<SourceFile>, AllocError> {
    let mut files = Vec::new(alloc);
    files.push(source_file(alloc, name, text)?)?;
    Ok(files)
}

/// A file with a name and a text.
fn source_file(alloc: Global, name: &str, text: &str) -> Result<SourceFile, AllocError> {
    Ok(SourceFile {
        name: copy_of(alloc, name)?,
        text: copy_of(alloc, text)?,
    })
}

fn copy_of(alloc: Global, text: &str) -> Result<String, AllocError> {
    let mut copy = String::new(alloc);
    copy.push_str(text)?;
    Ok(copy)
}

/// Reads the file that files want, and adds it; or answers why they make no text.
fn add_wanted<Rt: AllocGlobal + Files>(
    rt: &Rt,
    files: &mut Vec<SourceFile>,
    error: IncludeError,
) -> Result<(), NamedFault> {
    let alloc = rt.alloc();
    match error {
        IncludeError::Wanted { place, name } => match read_wanted(rt, name.as_str()) {
            Ok(file) => match files.push(file) {
                Ok(()) => Ok(()),
                Err(_) => Err(named(alloc, "", ServeError::Memory)),
            },
            Err(fault) => Err(fault_at(alloc, files, place, fault)),
        },
        IncludeError::Fault { place, kind } => {
            Err(refused_at(alloc, files, place, IncludeRefusal::Line(kind)))
        }
        IncludeError::Memory => Err(named(alloc, "", ServeError::Memory)),
    }
}

/// The file with a name, which a line includes.
fn read_wanted<Rt: AllocGlobal + Files>(rt: &Rt, name: &str) -> Result<SourceFile, ServeError> {
    let input = regular_input(rt, name)?;
    match str::from_utf8(&input) {
        Ok(text) => Ok(source_file(rt.alloc(), name, text)?),
        Err(_) => Err(ServeError::Input(InputFault::BadText)),
    }
}

/// Why a line can't include its file, which was refused with a fault.
fn fault_at(
    alloc: Global,
    files: &[SourceFile],
    place: IncludePlace,
    fault: ServeError,
) -> NamedFault {
    let refusal = match fault {
        ServeError::Input(InputFault::TooLong) => {
            IncludeRefusal::Line(IncludeFaultKind::IncludeSize)
        }
        ServeError::Input(fault) => IncludeRefusal::File(fault),
        ServeError::Read => IncludeRefusal::File(InputFault::Read),
        _ => return named(alloc, "", fault),
    };
    refused_at(alloc, files, place, refusal)
}

/// The refusal of a line at a place in one of some files.
fn refused_at(
    alloc: Global,
    files: &[SourceFile],
    place: IncludePlace,
    refusal: IncludeRefusal,
) -> NamedFault {
    let Some(file) = files.get(place.file) else {
        return named(alloc, "", ServeError::Memory);
    };
    let fault = IncludeFault {
        line: place.line,
        column: place.column,
        refusal,
    };
    match shown_include_fault(alloc, file.text.as_str(), fault) {
        Ok(fault) => named(alloc, file.name.as_str(), fault),
        Err(AllocError) => named(alloc, "", ServeError::Memory),
    }
}

/// The fault of the file with a name; out of memory for the name is one.
fn named(alloc: Global, name: &str, fault: ServeError) -> NamedFault {
    match copy_of(alloc, name) {
        Ok(name) => NamedFault { name, fault },
        Err(AllocError) => NamedFault {
            name: String::new(alloc),
            fault: ServeError::Memory,
        },
    }
}
