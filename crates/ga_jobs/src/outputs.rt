//! What a job writes.
ghost use Rattle.std.specs.Prelude.{◌≡◌, IfOk, option_map, string_bytes, true};
ghost use Rattle.ga_jobs.specs.{writes_pieces};
ghost use Rattle.ga_jobs.specs.Answering.{IsOutput};
ghost use Rattle.ga_input.specs.Fault.{Answers};
ghost use Rattle.ga_jobs.specs.Outputs.{WritesText, in_pieces, text_of};
ghost use Rattle.ga_views.specs.TraceJob.{IsTraceOutput};

use crate::Job;
use crate::answering::{answer, within_limit};
use crate::engine::{Ending, ending_of};
use ga_input::{Loading, ServeError, Writes, write_output};
use ga_views::trace::{Waveform, prepared};
use std::alloc::Global;
use std::io::Write;
use std::thread::Threads;
use std::time::Clock;

/// What a job writes: a text, or a waveform, which is written as it is made.
#[derive(Drop)]
pub enum Output {
    Text(String),
    Waveform(Waveform),
}

/// What a job writes for bytes in memory, or the first fault of the input, as
/// [`answer`](crate::answer) answers it.
pub fn output_of<Rt: AllocGlobal + Threads + Clock + Sync>(
    rt: &Rt,
    job: &Job,
    input: &[u8],
) -> Result<Output, ServeError>
    ensures output { Answers text_of (IsOutput job.now input.now) result }
    // only what a job writes in pieces isn't made yet
    ensures pieces { IfOk result (λ output. in_pieces output ≡ true
        → writes_pieces job.now ≡ true) }
{
    match job {
        Job::Trace {
            loading,
            turns,
            nodes,
            ..
        } => {
            within_limit(job, input)?;
            waveform_of(rt.alloc(), loading, *turns, nodes, input)
        }
        _ => Ok(Output::Text(answer(rt, job, input)?)),
    }
}

/// The waveform of the input's chip, which isn't made yet.
fn waveform_of(
    alloc: Global,
    loading: &Loading,
    turns: Option<u32>,
    names: &Option<String>,
    input: &[u8],
) -> Result<Output, ServeError>
    ensures { Answers text_of (IsTraceOutput loading.now turns
        (option_map string_bytes names.now) input.now) result }
{
    Ok(Output::Waveform(prepared(alloc, loading, turns, names, input)?))
}

impl Output {
    /// Writes all of it, and answers how the job ended. It fails as [`ServeError::Write`] if a
    /// write failed, and as [`ServeError::Memory`] if a waveform is out of memory; then a prefix
    /// of it was written.
    pub fn write<W: Write>(
        &self,
        alloc: Global,
        writer: &mut W,
        job: &Job,
    ) -> Result<Ending, ServeError>
        requires pieces { in_pieces self.now ≡ true → writes_pieces job.now ≡ true }
        ensures { WritesText job.now (text_of self.now)
            (W.contents writer.old) (W.contents writer.new) result }
    {
        match self {
            Output::Text(text) => {
                write_output(writer, text.as_bytes(), &mut Writes::default())?;
                Ok(ending_of(job, text.as_str()))
            }
            Output::Waveform(made) => {
                made.write(alloc, writer)?;
                Ok(Ending::Done)
            }
        }
    }
}
