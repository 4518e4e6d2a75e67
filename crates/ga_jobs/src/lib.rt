//! The jobs of the bench, and the engine that serves them: it reads an input, makes the text of a
//! job, and writes it. What a job makes of the bytes of an input is in a crate below; this file
//! lists the jobs.
#![tactic(auto)]

ghost use Rattle.std.specs.Prelude.{◌≡◌, IfSome, is_some, map, not, option_map, string_bytes};
ghost use Rattle.ga_jobs.specs.{IsJobOutput, file_of, given_file, named_file, needs_threads, only_file, reads_input, several_files_of, takes_any_source};
ghost use Rattle.ga_input.specs.Fault.{Answers};

mod answering;
mod engine;
mod explain;
mod larger;
mod outputs;

pub use crate::answering::{answer, answer_alone};
pub use crate::engine::{Ending, ending_of, serve, status};
pub use crate::larger::{open_file, output_of_file, serve_file};
pub use crate::outputs::{Output, output_of};
use ga_diagnostics::lint;
use ga_explain::Topic;
use ga_input::{Loading, ServeError, session};
use ga_profile::WindowStart;
use ga_programs::{asm, boot, dis, expand, list, one};
use ga_replays::{check, debug, record, replay};
use ga_views::{counts, map, profile, race, report, trace};
use std::alloc::Global;

/// What a command line asks for, one variant for each subcommand. The input is in the file, or
/// comes from standard input if there is none.
#[derive(PartialEq, Eq, Drop)]
pub enum Job {
    /// One node runs the words of the input, for as many tries.
    One {
        tries: u32,
        file: Option<String>,
    },
    /// The words of the nodes of a source text.
    Asm {
        file: Option<String>,
    },
    /// The source text of the words of the input, of which the first ones, or all, are code.
    Dis {
        code: Option<u32>,
        file: Option<String>,
    },
    /// The boot stream of one route or more through the nodes of a source text.
    Boot {
        route: String,
        file: Option<String>,
    },
    /// The nodes of one route or more after a run of workers, booted from a source text.
    Run {
        route: String,
        workers: u32,
        turns: u32,
        file: Option<String>,
    },
    /// The replies to the commands of a replay text.
    Debug,
    /// The session of the file, to be talked with at the prompt. As a job it is opened, and nothing
    /// is written.
    Talk {
        loading: Loading,
        file: String,
        any_source: bool,
    },
    /// How many stated outcomes of a replay text hold.
    Replay {
        file: Option<String>,
    },
    /// The plain source text that a text of the larger language expands to.
    Expand {
        file: Option<String>,
    },
    /// The words of a source text with their instructions, or only its labels.
    List {
        labels: bool,
        file: Option<String>,
    },
    /// The warnings about a source text, as JSON or as compilers write them. If they are denied,
    /// one is a fault of the text.
    Lint {
        deny: bool,
        json: bool,
        file: Option<String>,
    },
    /// How many commands a transcript has, if each has the expected reply. As a job it has one
    /// input: several files are inputs of as many jobs, and
    /// [`FileReport`](ga_replays::FileReport) has what is reported of each.
    Check {
        files: Vec<String>,
        any_source: bool,
    },
    /// The listing of a program, after the commands of its session, with how often each word is
    /// fetched and the opcode in each slot run in turns until rest.
    Counts {
        loading: Loading,
        turns: Option<u32>,
        file: Option<String>,
    },
    /// A transcript with the replies that come.
    Record {
        file: Option<String>,
        any_source: bool,
    },
    /// Each file has a transcript, and is replaced by its recording. As a job it has the bytes of
    /// one of them, and its output is what replaces them.
    Rewrite {
        files: Vec<String>,
        any_source: bool,
    },
    /// What one run of a chip shows of all its runs, by a session or source text.
    Race {
        loading: Loading,
        turns: Option<u32>,
        witness: bool,
        file: Option<String>,
    },
    /// The picture of a chip, after the commands of its session and turns until rest.
    Map {
        loading: Loading,
        turns: Option<u32>,
        file: Option<String>,
    },
    /// What each node of a chip does in a run, after the commands of its session, the bottleneck,
    /// and who waits at the end. As JSON it is no part of the job's output: as a job its session is
    /// opened then, and nothing is written.
    Profile {
        loading: Loading,
        start: WindowStart,
        json: bool,
        turns: Option<u32>,
        file: Option<String>,
    },
    /// The waveform of a chip, after the commands of its session: turns until rest. It shows the
    /// nodes that a text names, or those of the program. The save file of a viewer, for which a
    /// name may be given, is no part of the job's output.
    Trace {
        loading: Loading,
        turns: Option<u32>,
        nodes: Option<String>,
        save: Option<String>,
        file: Option<String>,
    },
    /// A page in HTML of what a chip does in a run, after the commands of its session.
    Report {
        loading: Loading,
        start: WindowStart,
        turns: Option<u32>,
        file: Option<String>,
    },
    /// What a name means that the program writes, or all these names.
    Explain {
        topic: Option<Topic>,
    },
}

impl Job {
    /// Whether the job reads an input.
    pub fn reads_input(&self) -> bool
        ensures { result ≡ reads_input self.now }
    {
        !matches!(self, Job::Explain { .. })
    }

    /// The files that the job checks, one after another, if they are two or more.
    pub fn several_files(&self) -> Option<&[String]>
        ensures { option_map (λ files. map string_bytes files.now) result
            ≡ several_files_of self.now }
    {
        match self {
            Job::Check { files, .. } if files.len() > 1 => Some(files.as_slice()),
            _ => None,
        }
    }

    /// Whether a source that a transcript of the job names may lie outside its folder.
    pub fn takes_any_source(&self) -> bool
        ensures { result ≡ takes_any_source self.now }
    {
        match self {
            Job::Talk { any_source, .. }
            | Job::Check { any_source, .. }
            | Job::Record { any_source, .. }
            | Job::Rewrite { any_source, .. } => *any_source,
            _ => false,
        }
    }

    /// The name of the file that the job reads in place of standard input, if it names one alone;
    /// `-` is standard input too.
    pub fn file(&self) -> Option<&str>
        ensures { option_map (λ name. name.now) result ≡ file_of self.now }
    {
        match self {
            Job::One { file, .. }
            | Job::Asm { file }
            | Job::Dis { file, .. }
            | Job::Boot { file, .. }
            | Job::Run { file, .. }
            | Job::Replay { file }
            | Job::Expand { file }
            | Job::List { file, .. }
            | Job::Lint { file, .. }
            | Job::Record { file, .. }
            | Job::Race { file, .. }
            | Job::Map { file, .. }
            | Job::Profile { file, .. }
            | Job::Trace { file, .. }
            | Job::Counts { file, .. }
            | Job::Report { file, .. } => given_file(file),
            Job::Talk { file, .. } => named_file(file),
            Job::Check { files, .. } => only_file(files),
            Job::Debug | Job::Rewrite { .. } | Job::Explain { .. } => None,
        }
    }
}

/// The name of a file that may be left out, unless it is `-`.
fn given_file(file: &Option<String>) -> Option<&str>
    ensures { option_map (λ name. name.now) result ≡ given_file file.now }
{
    match file {
        Some(file) => named_file(file),
        None => None,
    }
}

/// The name of a file, unless it is `-`.
fn named_file(file: &String) -> Option<&str>
    ensures { option_map (λ name. name.now) result ≡ named_file file.now }
{
    if file.as_str() == "-" {
        None
    } else {
        Some(file.as_str())
    }
}

/// The name of the only file, unless it is `-`.
fn only_file(files: &[String]) -> Option<&str>
    ensures { option_map (λ name. name.now) result ≡ only_file files.now }
{
    match files {
        [file] => named_file(file),
        _ => None,
    }
}

/// What a job writes for an input that is not too long: `None` only for the job `run`.
// long: an arm for each job
#[tactic(auto, unfolding(crate::specs::IsJobOutput))]
fn output(alloc: Global, job: &Job, input: &[u8]) -> Option<Result<String, ServeError>>
    ensures answer { IfSome result (Answers string_bytes (IsJobOutput job.now input.now)) }
    ensures none { is_some result ≡ not (needs_threads job.now) }
{
    match job {
        Job::One { tries, .. } => Some(one::output(alloc, *tries, input)),
        Job::Asm { .. } => Some(asm::output(alloc, input)),
        Job::Dis { code, .. } => Some(dis::output(alloc, *code, input)),
        Job::Boot { route, .. } => Some(boot::output(alloc, route, input)),
        Job::Run { .. } => None,
        Job::Debug => Some(debug::output(alloc, input)),
        Job::Talk { loading, .. } => Some(session::output(alloc, loading, input)),
        Job::Replay { .. } => Some(replay::output(alloc, input)),
        Job::Expand { .. } => Some(expand::output(alloc, input)),
        Job::List { labels, .. } => Some(list::output(alloc, *labels, input)),
        Job::Lint { json, file, .. } => Some(lint::output(alloc, *json, file, input)),
        Job::Check { .. } => Some(check::output(alloc, input)),
        Job::Record { .. } | Job::Rewrite { .. } => Some(record::output(alloc, input)),
        Job::Race {
            loading,
            turns,
            witness,
            ..
        } => Some(race::output(alloc, loading, *turns, *witness, input)),
        Job::Map { loading, turns, .. } => Some(map::output(alloc, loading, *turns, input)),
        Job::Profile {
            loading,
            start,
            json,
            turns,
            ..
        } => Some(profile::output(alloc, loading, *start, *json, *turns, input)),
        Job::Trace {
            loading,
            turns,
            nodes,
            ..
        } => Some(trace::output(alloc, loading, *turns, nodes, input)),
        Job::Counts { loading, turns, .. } => {
            Some(counts::output(alloc, loading, *turns, input))
        }
        Job::Report {
            loading,
            start,
            turns,
            ..
        } => Some(report::output(alloc, loading, *start, *turns, input)),
        Job::Explain { topic } => Some(explain::output(alloc, *topic)),
    }
}
