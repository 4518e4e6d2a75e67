ghost use Rattle.std.specs.Prelude.{◌≡◌, ◌≢◌, ◌≤◌, ℕ, ◌+◌, false, List, IfErr, IfSome, MatchBool, length};
ghost use Rattle.std.specs.Io.KnownBytes.{Consumes, Keeps};
ghost use Rattle.ga_jobs.specs.{reads_input, writes_pieces};
ghost use Rattle.ga_jobs.specs.Answering.{HasOneOutput};
ghost use Rattle.ga_input.specs.Reading.{INPUT_LIMIT};
ghost use Rattle.ga_jobs.specs.Outputs.{ending_of};
ghost use Rattle.ga_input.specs.Reading.{ReadsToEnd};
ghost use Rattle.ga_jobs.specs.Engine.{Serves, status_of};

use crate::Job;
use crate::outputs::output_of;
use ga_input::{Reads, ServeError, read_input};
use ga_transcript::{Unmet, find_unmet};
use std::io::{Read, Write};
use std::thread::Threads;
use std::time::Clock;

/// How a job ended whose output was written.
#[derive(Clone, Copy, PartialEq, Eq)]
pub enum Ending {
    Done,
    /// The output reports a race.
    Race,
    /// The output has warnings, which are denied.
    Denied,
    /// The output has replies to expectations that aren't met.
    Failed(Unmet),
}

/// Serves a job, the engine under every subcommand: reads the whole input, makes the whole output,
/// and then writes it; a waveform is written as it is made. An input has at most 1,048,576 bytes,
/// and comes in at most 2,097,152 reads. For `explain` nothing is read.
///
/// The first fault is answered. `Read` and `Input(TooLong)` come while the input is read, the
/// faults of the input in the order of the job's output, and `Write` last; a prefix of the output
/// may then have been written. `Memory` comes when out of memory, before anything is written but a
/// prefix of a waveform.
#[tactic(auto, using(crate::proofs::OneAnswer::one_output))]
pub fn serve<Rt: AllocGlobal + Threads + Clock + Sync, R: Read, W: Write>(
    rt: &Rt,
    reader: &mut R,
    writer: &mut W,
    job: &Job,
) -> Result<Ending, ServeError>
    // If the bytes of the reader and the writer are known, what is written is an output for the
    // input, or after a fault its prefix or nothing.
    ensures served { IfSome (R.remaining reader.old) (λ input.
        Serves job.now input (W.contents writer.old) (W.contents writer.new) result) }
    // a job that reads no input leaves the reader as it was
    ensures read_first { MatchBool (reads_input job.now)
        (ReadsToEnd result (R.remaining reader.new))
        (Keeps (R.remaining reader.old) (R.remaining reader.new)) }
    ensures read_no_more { (taken : List ℕ) × Consumes (R.remaining reader.old)
        (R.remaining reader.new) taken × (length taken ≤ INPUT_LIMIT + 1) }

    // At any reader.
    ensures unread { reads_input job.now ≡ false → reader.new ≡ reader.old }
    ensures needs_no_read { reads_input job.now ≡ false
        → IfErr result (λ fault. fault ≢ ServeError.Read) }
    ensures only { (input : List ℕ) → HasOneOutput job.now input }
    ensures unwritten { IfErr result (λ fault. fault ≢ ServeError.Write
        → (fault ≡ ServeError.Memory → writes_pieces job.now ≡ false)
        → Keeps (W.contents writer.old) (W.contents writer.new)) }
{
    if !job.reads_input() {
        return respond(rt, writer, job, &[]);
    }
    let input = read_input(rt.alloc(), reader, &mut Reads::default())?;
    respond(rt, writer, job, &input)
}

/// Writes the output for an input.
fn respond<Rt: AllocGlobal + Threads + Clock + Sync, W: Write>(
    rt: &Rt,
    writer: &mut W,
    job: &Job,
    input: &[u8],
) -> Result<Ending, ServeError>
    ensures served { Serves job.now input.now
        (W.contents writer.old) (W.contents writer.new) result }
    ensures no_read { IfErr result (λ fault. fault ≢ ServeError.Read) }
    ensures unwritten { IfErr result (λ fault. fault ≢ ServeError.Write
        → (fault ≡ ServeError.Memory → writes_pieces job.now ≡ false)
        → Keeps (W.contents writer.old) (W.contents writer.new)) }
{
    let output = output_of(rt, job, input)?;
    output.write(rt.alloc(), writer, job)
}

/// How a job ended, by the text that it wrote.
pub fn ending_of(job: &Job, text: &str) -> Ending
    ensures { result ≡ ending_of job.now text.now }
{
    match job {
        Job::Record { .. } => match find_unmet(text) {
            Some(unmet) => Ending::Failed(unmet),
            None => Ending::Done,
        },
        Job::Race { .. } if !text.starts_with("no race") => Ending::Race,
        Job::Lint { deny: true, .. } if !text.is_empty() => Ending::Denied,
        _ => Ending::Done,
    }
}

/// The exit status of the program: 0 for an output that was written, 1 for one that reports a race,
/// warnings that are denied, or expectations that aren't met, for a refused input, and for a read
/// or a write that failed, and 3 when out of memory.
pub fn status(outcome: &Result<Ending, ServeError>) -> u8
    ensures { result ≡ status_of outcome.now }
{
    match outcome {
        Ok(Ending::Done) => 0,
        Err(ServeError::Memory) => 3,
        Ok(Ending::Race | Ending::Denied | Ending::Failed(_)) | Err(_) => 1,
    }
}
