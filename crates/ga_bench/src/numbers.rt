//! The numbers of a profile as JSON.
ghost use Rattle.std.specs.Prelude.{IfOk, string_bytes};
ghost use Rattle.ga_jobs.specs.{file_of};
ghost use Rattle.ga_input.specs.Fault.{Answers};
ghost use Rattle.ga_input.specs.Session.{IsSession};
ghost use Rattle.ga_bench.specs.Input.{IsReadBy};
ghost use Rattle.ga_bench.specs.Numbers.{AreNumbers};

use ga_input::{Loading, ServeError, open_session};
use ga_jobs::{Job, open_file};
use ga_json::run_json;
use ga_profile::WindowStart;
use ga_transcript::Live;
use ga_views::race::TURNS;
use std::alloc::Global;

/// The profile of the session that a job's input opens as JSON, on a line.
pub fn numbers_of(
    alloc: Global,
    job: &Job,
    loading: &Loading,
    start: WindowStart,
    turns: Option<u32>,
    input: &[u8],
) -> Result<String, ServeError>
    ensures { IfOk result (λ line.
        AreNumbers job.now loading.now start turns input.now (string_bytes line)) }
{
    let live = opened(alloc, job, loading, input)?;
    let mut line = run_json(alloc, live.chip(), start, turns.unwrap_or(TURNS))?;
    line.push_str("\n")?;
    Ok(line)
}

/// The session that a job's input opens. Standard input is no text of the larger language.
pub fn opened(alloc: Global, job: &Job, loading: &Loading, input: &[u8]) -> Result<Live, ServeError>
    ensures { Answers (λ live. live)
        (IsReadBy (file_of job.now) (IsSession loading.now) input.now) result }
{
    match job.file() {
        None => open_session(alloc, loading, input),
        Some(_) => open_file(alloc, loading, input),
    }
}
