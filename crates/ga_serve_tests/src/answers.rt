//! A client of the engine, whose clause is the whole way from bytes to bytes.
ghost use Rattle.std.specs.Prelude.{◌≡◌, ◌++◌, List, ℕ, Ok, OnOk};
ghost use Rattle.ga_jobs.specs.Answering.{IsOutput};

use crate::streams::{FIVE_TRIES, LINE, WORDS};
use ga_input::ServeError;
use ga_jobs::{Ending, Job, serve, status};
use std::thread::Threads;
use std::time::Clock;

/// Serves a job over bytes in memory. Its clause is the composition: the bytes written are an
/// output of the job for the bytes read.
fn served(
    rt: &(impl AllocGlobal + Threads + Clock + Sync),
    job: &Job,
    input: &[u8],
    output: &mut Vec<u8>,
) -> Result<Ending, ServeError>
    ensures { OnOk result ((text : List ℕ) × IsOutput job.now input.now (Ok text)
        × (output.new.items ≡ output.old.items ++ text)) }
{
    let mut reader = input;
    serve(rt, &mut reader, output, job)
}

#[test]
fn composes(rt: HostRuntime) {
    let mut output = Vec::new(rt.alloc());
    let outcome = served(&rt, &FIVE_TRIES, WORDS.as_bytes(), &mut output);
    assert!(rt; status(&outcome) == 0 && output.as_slice() == LINE.as_bytes());
}
