//! Files whose source text may be of the larger language.
ghost use Rattle.std.specs.Prelude.{◌≡◌, IfOk, true};
ghost use Rattle.ga_input.specs.Fault.{Answers};
ghost use Rattle.ga_input.specs.Larger.{IsOfFile, IsOfLarger};
ghost use Rattle.ga_input.specs.Session.{IsSession};
ghost use Rattle.ga_jobs.specs.{writes_pieces};
ghost use Rattle.ga_jobs.specs.Answering.{IsOutput};
ghost use Rattle.ga_jobs.specs.Engine.{ServesFile};
ghost use Rattle.ga_jobs.specs.Outputs.{in_pieces, text_of};

use crate::Job;
use crate::engine::Ending;
use crate::outputs::{Output, output_of};
use ga_input::{Loading, ServeError, as_written, expanded, open_session, plain_fault};
use ga_transcript::Live;
use std::alloc::Global;
use std::io::Write;
use std::thread::Threads;
use std::time::Clock;

/// Serves a job for the bytes of a file: writes what [`output_of_file`] answers. `Write` comes
/// last; a prefix of the output may then have been written, and of a waveform also when out of
/// memory. At any other fault nothing is written.
pub fn serve_file<Rt: AllocGlobal + Threads + Clock + Sync, W: Write>(
    rt: &Rt,
    writer: &mut W,
    job: &Job,
    input: &[u8],
) -> Result<Ending, ServeError>
    ensures { ServesFile job.now input.now (W.contents writer.old) (W.contents writer.new) result }
{
    let output = output_of_file(rt, job, input)?;
    output.write(rt.alloc(), writer, job)
}

/// What a job writes for the bytes of a file, as [`output_of`] answers it. If they are refused as
/// source text, they are read as text of the larger language: the answer is the one to the text
/// that they expand to. For a job that takes a session, bytes that begin with `profile` are one. A
/// fault of that text comes at the place where its token was written, and one of the larger
/// language as `expand` reports it. (The language is this project's own: profile.)
pub fn output_of_file<Rt: AllocGlobal + Threads + Clock + Sync>(
    rt: &Rt,
    job: &Job,
    input: &[u8],
) -> Result<Output, ServeError>
    ensures output { Answers text_of (IsOfFile (IsOutput job.now) input.now) result }
    ensures pieces { IfOk result (λ output. in_pieces output ≡ true
        → writes_pieces job.now ≡ true) }
{
    match output_of(rt, job, input) {
        Ok(output) => Ok(output),
        Err(fault) => match plain_fault(input, &fault) {
            Some(_) => output_of_larger(rt, job, input),
            None => Err(fault),
        },
    }
}

/// The session that the bytes of a file open: a transcript, or the head of a session, whose
/// commands are done; or source text, which may be of the larger language, as for
/// [`output_of_file`]. Or the first fault, as `race` reports it. `Memory` comes only when out of
/// memory. (The sessions are this project's own: profile.)
pub fn open_file(alloc: Global, loading: &Loading, input: &[u8]) -> Result<Live, ServeError>
    ensures { Answers (λ live. live) (IsOfFile (IsSession loading.now) input.now) result }
{
    match open_session(alloc, loading, input) {
        Ok(live) => Ok(live),
        Err(fault) => match plain_fault(input, &fault) {
            Some(_) => open_larger(alloc, loading, input),
            None => Err(fault),
        },
    }
}

/// What a job writes for text of the larger language.
fn output_of_larger<Rt: AllocGlobal + Threads + Clock + Sync>(
    rt: &Rt,
    job: &Job,
    input: &[u8],
) -> Result<Output, ServeError>
    ensures output { Answers text_of (IsOfLarger (IsOutput job.now) input.now) result }
    ensures pieces { IfOk result (λ output. in_pieces output ≡ true
        → writes_pieces job.now ≡ true) }
{
    let (text, made) = expanded(rt.alloc(), input)?;
    match output_of(rt, job, made.text.as_bytes()) {
        Ok(output) => Ok(output),
        Err(fault) => Err(as_written(rt.alloc(), text, &made, fault)?),
    }
}

/// The session that text of the larger language opens.
fn open_larger(alloc: Global, loading: &Loading, input: &[u8]) -> Result<Live, ServeError>
    ensures { Answers (λ live. live) (IsOfLarger (IsSession loading.now) input.now) result }
{
    let (text, made) = expanded(alloc, input)?;
    match open_session(alloc, loading, made.text.as_bytes()) {
        Ok(live) => Ok(live),
        Err(fault) => Err(as_written(alloc, text, &made, fault)?),
    }
}
