ghost use Rattle.std.specs.Prelude.{◌≡◌, Err, IfSome, Ok, not, if◌then◌else◌, is_some, string_bytes};
ghost use Rattle.ga_input.specs.declared.fault.InputFault.TheVariants.{TooLong};
ghost use Rattle.ga_input.specs.declared.fault.ServeError.TheVariants.{Input};
ghost use Rattle.ga_input.specs.Fault.{Answers};
ghost use Rattle.ga_jobs.specs.{needs_threads};
ghost use Rattle.ga_jobs.specs.Answering.{HasOneOutput, IsOutput, is_too_long};

use crate::{Job, output};
use ga_input::{INPUT_LIMIT, InputFault, ServeError};
use ga_programs::run;
use std::alloc::Global;
use std::thread::Threads;
use std::time::Clock;

/// What a job answers to bytes in memory: its output, or the first fault of the input. An input of
/// more than 1,048,576 bytes is refused as `Input(TooLong)`; `explain` ignores its input. It reads
/// nothing and writes nothing, so it never fails with `Read` or `Write`, and with `Memory` only
/// when out of memory. (The jobs are this project's own: profile.)
#[tactic(auto, using(crate::proofs::OneAnswer::one_output))]
pub fn answer<Rt: AllocGlobal + Threads + Clock + Sync>(
    rt: &Rt,
    job: &Job,
    input: &[u8],
) -> Result<String, ServeError>
    ensures answer { Answers string_bytes (IsOutput job.now input.now) result }
    // of two answers to one input only those of a run may be two texts
    ensures only { HasOneOutput job.now input.now }
{
    match job {
        Job::Run {
            route,
            workers,
            turns,
            ..
        } => {
            within_limit(job, input)?;
            run::output(rt, route, *workers, *turns, input)
        }
        _ => match answer_alone(rt.alloc(), job, input) {
            Some(answer) => answer,
            None => unreachable!(),
        },
    }
}

/// The answer of [`answer`], by a call that can't start threads, and so waits for none: `None` only
/// for the job `run`, which needs them.
#[tactic(auto, using(crate::proofs::OneAnswer::one_output))]
pub fn answer_alone(alloc: Global, job: &Job, input: &[u8]) -> Option<Result<String, ServeError>>
    ensures answer { IfSome result (Answers string_bytes (IsOutput job.now input.now)) }
    ensures none { is_some result ≡ not (needs_threads job.now) }
    ensures only { HasOneOutput job.now input.now }
{
    match within_limit(job, input) {
        Ok(()) => output(alloc, job, input),
        Err(_) if matches!(job, Job::Run { .. }) => None,
        Err(fault) => Some(Err(fault)),
    }
}

/// Refuses more bytes than a job may read.
pub(crate) fn within_limit(job: &Job, input: &[u8]) -> Result<(), ServeError>
    ensures { result ≡ if is_too_long job.now input.now then Err (Input TooLong) else Ok tt }
{
    if job.reads_input() && input.len() > INPUT_LIMIT {
        return Err(ServeError::Input(InputFault::TooLong));
    }
    Ok(())
}
