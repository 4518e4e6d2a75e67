//! Every job, by readers and writers that fail at each call in turn, or take and give one byte at a
//! call.
use crate::streams::{FIVE_TRIES, WORDS, sink_of, source_of};
use ga_explain::Topic;
use ga_input::{Loading, ServeError};
use ga_jobs::{Ending, Job, serve};
use ga_profile::WindowStart;
use std::alloc::{AllocError, Global};
use std::test::Fail;
use std::thread::Threads;
use std::time::Clock;

/// Two nodes of which the second adds 5 and 7.
const SOURCE: &str = "node 709 main: $5 $7 + @b";

/// A text of the larger language.
const LARGER: &str = "const FIVE 5\nnode 709 to 710 b! FIVE !b";

/// A session of a node that is held, and a view of it.
const SESSION: &str =
    "profile 2\nplace\nnode 000 . align . x: jump x\ngo\nbreak 000 001\nturn 9\nregs 000\n";

/// Steps of the same node, and their results.
const STEPS: &str =
    "profile 2\nplace\nnode 000 . align . x: jump x\ngo\nbreak 000 001\nturn 9 = 5\n";

/// A transcript of the same node.
const TRANSCRIPT: &str =
    "profile 2\nplace\nnode 000 . align . x: jump x\ngo\n> break 000 x\nok\n> breaks\n000 002 x\n";

/// The source text of two words.
const DIS: Job = Job::Dis {
    code: Some(2),
    file: None,
};

/// A listing.
const LIST: Job = Job::List {
    labels: false,
    file: None,
};

/// The warnings about a text, which are denied.
const LINT: Job = Job::Lint {
    deny: true,
    json: false,
    file: None,
};

/// The recording of a transcript.
const RECORD: Job = Job::Record {
    file: None,
    any_source: false,
};

/// The picture of a chip at rest.
const MAP: Job = Job::Map {
    loading: Loading::Any,
    turns: None,
    file: None,
};

/// What the nodes of a chip do in 40 turns.
const PROFILE: Job = Job::Profile {
    loading: Loading::Place,
    start: WindowStart::LastNode,
    json: false,
    turns: Some(40),
    file: None,
};

/// The waveform of four turns, which is written as it is made.
const TRACE: Job = Job::Trace {
    loading: Loading::Place,
    turns: Some(4),
    nodes: None,
    save: None,
    file: None,
};

/// Whether the head of a session has a race.
const RACE: Job = Job::Race {
    loading: Loading::Any,
    turns: None,
    witness: false,
    file: None,
};

/// How often the words of a program are fetched in 40 turns.
const COUNTS: Job = Job::Counts {
    loading: Loading::Place,
    turns: Some(40),
    file: None,
};

/// The page of four turns.
const REPORT: Job = Job::Report {
    loading: Loading::Place,
    start: WindowStart::LastNode,
    turns: Some(4),
    file: None,
};

/// How many bytes are read or, of a short output, written at a call.
const PIECE: usize = 16;

/// How many calls are made at the most.
const MOST: u32 = 2000;

/// How many jobs `job_at` has.
const JOBS: u32 = 19;

/// A job of each subcommand that has one input or none, by number, and an input that it accepts.
fn job_at(alloc: Global, number: u32) -> Result<(Job, &'static str), AllocError> {
    match number {
        0 => Ok((FIVE_TRIES, WORDS)),
        1 => Ok((Job::Asm { file: None }, SOURCE)),
        2 => Ok((DIS, WORDS)),
        3 => boot_job(alloc),
        4 => run_job(alloc),
        5 => Ok((Job::Debug, SESSION)),
        6 => Ok((Job::Replay { file: None }, STEPS)),
        7 => Ok((Job::Expand { file: None }, LARGER)),
        8 => Ok((LIST, SOURCE)),
        9 => Ok((LINT, "node 708 + jump warm")),
        10 => Ok((check_job(alloc), TRANSCRIPT)),
        11 => Ok((RECORD, TRANSCRIPT)),
        12 => Ok((RACE, TRANSCRIPT)),
        13 => explain_job(alloc),
        14 => Ok((MAP, TRANSCRIPT)),
        15 => Ok((PROFILE, SOURCE)),
        16 => Ok((TRACE, SOURCE)),
        17 => Ok((COUNTS, SOURCE)),
        _ => Ok((REPORT, SOURCE)),
    }
}

fn boot_job(alloc: Global) -> Result<(Job, &'static str), AllocError> {
    let route = String::from_str(alloc, "708,709")?;
    Ok((Job::Boot { route, file: None }, SOURCE))
}

fn run_job(alloc: Global) -> Result<(Job, &'static str), AllocError> {
    let route = String::from_str(alloc, "708,709")?;
    let run = Job::Run {
        route,
        workers: 1,
        turns: 200,
        file: None,
    };
    Ok((run, SOURCE))
}

fn check_job(alloc: Global) -> Job {
    Job::Check {
        files: Vec::new(alloc),
        any_source: false,
    }
}

fn explain_job(alloc: Global) -> Result<(Job, &'static str), AllocError> {
    let topic = Topic::named(alloc, "NotHeld")?;
    Ok((Job::Explain { topic }, ""))
}

/// What a job leaves: how it ended, what it wrote, and how many reads and calls of the writer that
/// took.
#[derive(Drop)]
struct Left {
    outcome: Result<Ending, ServeError>,
    taken: Vec<u8>,
    reads: u32,
    writes: u32,
}

/// Serves a job, by reads and writes of at most this many bytes. One read fails, or one call of the
/// writer.
fn served(
    rt: &(impl AllocGlobal + Threads + Clock + Sync),
    job: &Job,
    input: &str,
    most: usize,
    read_fails: Option<u32>,
    write_fails: Option<u32>,
) -> Left {
    let mut reader = source_of(input.as_bytes(), most);
    reader.fails_at = read_fails;
    let mut writer = sink_of(rt.alloc(), most);
    writer.fails_at = write_fails;
    let outcome = serve(rt, &mut reader, &mut writer, job);
    Left {
        outcome,
        taken: writer.taken,
        reads: reader.calls,
        writes: writer.calls,
    }
}

#[test]
fn serves_byte_by_byte(rt: HostRuntime) -> Result<(), Fail> {
    for number in 0..JOBS {
        let (job, input) = job_at(rt.alloc(), number)?;
        let whole = served(&rt, &job, input, 8192, None, None);
        let bytes = served(&rt, &job, input, 1, None, None);
        assert!(rt;
            whole.outcome.is_ok() && bytes.outcome == whole.outcome,
            "{input}"
        );
        assert!(rt;
            !whole.taken.is_empty() && bytes.taken == whole.taken,
            "{input}"
        );
    }
    Ok(())
}

#[test]
fn fails_at_each_read_of_a_job(rt: HostRuntime) -> Result<(), Fail> {
    for number in 0..JOBS {
        let (job, input) = job_at(rt.alloc(), number)?;
        let whole = served(&rt, &job, input, PIECE, None, None);
        assert!(rt; (whole.reads > 0) == job.reads_input() && whole.reads < MOST);
        for call in 0..whole.reads {
            let failed = served(&rt, &job, input, PIECE, Some(call), None);
            let is_right = failed.outcome == Err(ServeError::Read) && failed.writes == 0;
            assert!(rt; is_right, "{input}, read {call}");
        }
    }
    Ok(())
}

#[test]
fn fails_at_each_write_of_a_job(rt: HostRuntime) -> Result<(), Fail> {
    for number in 0..JOBS {
        let (job, input) = job_at(rt.alloc(), number)?;
        // writes of 16 bytes, or some twenty of a long output, and a flush
        let text = served(&rt, &job, input, 65536, None, None).taken;
        let piece = PIECE.max(text.len() / 20);
        let whole = served(&rt, &job, input, piece, None, None);
        assert!(rt; whole.writes > 1 && whole.writes < MOST);
        for call in 0..whole.writes {
            let failed = served(&rt, &job, input, piece, None, Some(call));
            assert!(rt;
                failed.outcome == Err(ServeError::Write),
                "{input}, write {call}"
            );
            let front = text
                .get(..piece.saturating_mul(call as usize))
                .unwrap_or(&text);
            assert!(rt; failed.taken.as_slice() == front, "{input}, write {call}");
        }
    }
    Ok(())
}
