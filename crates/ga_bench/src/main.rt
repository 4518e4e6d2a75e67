//! The bench of the GA144: each subcommand writes one text, and all but `explain` read one input.
#![tactic(auto)]

mod file_text;
mod named;
mod numbers;
mod reading;
mod reporting;
mod saved_files;
mod transcripts;

ghost use Rattle.std.specs.Prelude.{◌≡◌, IfErr, IfOk, IfSome, Ok, map, option_map, string_bytes, true};
ghost use Rattle.ga_command_line.specs.CommandLine.{InRange, IsJobOf, IsRight};
ghost use Rattle.ga_jobs.specs.{file_of, writes_pieces};
ghost use Rattle.ga_jobs.specs.Answering.{IsOutput};
ghost use Rattle.ga_jobs.specs.Engine.{status_of};
ghost use Rattle.ga_jobs.specs.Outputs.{in_pieces, text_of};
ghost use Rattle.ga_bench.specs.Input.{IsReadBy};
ghost use Rattle.ga_bench.specs.Saved.{IsSaved};
ghost use Rattle.ga_bench.specs.Status.{HasServed, HasStatus};

use crate::file_text::{FileText, NamedFault, file_text};
use crate::named::Named;
use crate::numbers::{numbers_of, opened};
use crate::reading::{EndsOnce, is_standard_output};
use crate::reporting::{refuse, refuse_missing, report_on_replaced, reported, reported_in};
use crate::saved_files::{SavedFiles, put};
use crate::transcripts::{Sources, check_status, rewrite_status, serve_transcript};
use clap::error::ErrorKind::{ArgumentConflict, InvalidValue};
use ga_command_line::{LineError, job, refusal};
use ga_diagnostics::lint::{form_of, warnings};
use ga_diagnostics::{Lines, written_listing};
use ga_input::{InputFault, Loading, ServeError, Writes, is_session, write_output};
use ga_jobs::{
    Ending, Job, Output, open_file, output_of, output_of_file, serve, serve_file, status,
};
use ga_messages::Form;
use ga_profile::WindowStart;
use ga_prompt::Conversation;
use ga_views::trace::save_text;
use std::alloc::Global;
use std::io::ErrorKind::{NotFound, OutOfMemory};
use std::io::{BufReader, IsTerminal, Read, Write};
use std::process::ExitCode;
use std::rt::{Env, Files};
use std::thread::Threads;
use std::time::Clock;
use std::{env, fs, io};

fn main(rt: HostRuntime) -> ExitCode {
    let status = match job_of_arguments(&rt) {
        Ok(Job::Rewrite { files, any_source }) => {
            rewrite_status(&rt, &files, Sources::of_flag(any_source))
        }
        Ok(job) => job_status(&rt, &mut rt.reader(), &job),
        Err(error) => refuse(&rt, error),
    };
    ExitCode::from(status)
}

/// Serves a job with its files, or else with standard input. Answers the exit status.
fn job_status<
    Rt: AllocGlobal + Print + Eprint + Threads + Clock + Sync + Files,
    R: Read + IsTerminal,
>(rt: &Rt, reader: &mut R, job: &Job) -> u8 {
    let reads_standard = job.file().is_none() && job.several_files().is_none();
    if job.reads_input() && reads_standard && reader.is_terminal() {
        let _ = eprintln!(rt;
            "ga-bench: reads from this terminal, until Ctrl-D at the beginning of a line"
        );
    }
    if let Job::Talk { loading, file, .. } = job {
        return talk_status(rt, reader, job, loading, file.as_str());
    }
    match (job.several_files(), job.file()) {
        (Some(files), _) => {
            check_status(rt, reader, files, Sources::of_flag(job.takes_any_source()))
        }
        (None, Some(name)) if is_missing(rt, name) => refuse_missing(rt, name),
        (None, None) if !writes_more(job) => serve_job(rt, reader, &mut io::writer(rt), job),
        (None, name) => named_status(rt, reader, name.unwrap_or("-"), job),
    }
}

/// Whether a job has more to write than `serve` does: a save file, the numbers of a profile, or its
/// errors as JSON.
fn writes_more(job: &Job) -> bool {
    matches!(
        job,
        Job::Trace { save: Some(_), .. }
            | Job::Profile { json: true, .. }
            | Job::Lint { json: true, .. }
    )
}

/// Whether there is no file with a name.
fn is_missing<R: Files>(rt: &R, name: &str) -> bool {
    matches!(fs::metadata(rt, name), Err(error) if error.kind() == NotFound)
}

/// Serves a job whose input is the file with a name, or standard input for `-`. Answers the exit
/// status.
fn named_status<Rt: AllocGlobal + Print + Eprint + Threads + Clock + Sync + Files, R: Read>(
    rt: &Rt,
    reader: &mut R,
    name: &str,
    job: &Job,
) -> u8 {
    if matches!(job, Job::Check { .. } | Job::Record { .. }) {
        return transcript_status(rt, name, job);
    }
    let text = match file_text(rt, reader, name, job) {
        Ok(text) => text,
        Err(refused) => return refused_status(rt, name, form_for(job), refused),
    };
    match job {
        Job::Trace {
            loading,
            nodes,
            save: Some(save),
            ..
        } => trace_status(rt, job, loading, nodes, save.as_str(), &text),
        Job::Profile {
            loading,
            start,
            json: true,
            turns,
            ..
        } => numbers_status(rt, job, loading, *start, *turns, &text),
        _ => text_status(rt, &text, job),
    }
}

/// Serves a job for the text of a file. Answers the exit status.
fn text_status<Rt: AllocGlobal + Print + Eprint + Threads + Clock + Sync>(
    rt: &Rt,
    text: &FileText<'_>,
    job: &Job,
) -> u8
    ensures { HasStatus result }
{
    let outcome = served(rt, &mut io::writer(rt), text, job);
    reported_of(rt, job, text, outcome)
}

/// Serves the job `check` or `record` for the file with a name. Answers the exit status.
fn transcript_status<Rt: AllocGlobal + Print + Eprint + Threads + Clock + Sync + Files>(
    rt: &Rt,
    name: &str,
    job: &Job,
) -> u8
    ensures { HasStatus result }
{
    let outcome = serve_transcript(rt, &mut io::writer(rt), name, job);
    reported(rt, &outcome)
}

/// Reports why the file with a name, or standard input for `-`, has no text. Answers the exit
/// status.
fn refused_status<Rt: AllocGlobal + Print + Eprint>(
    rt: &Rt,
    name: &str,
    form: Form,
    refused: NamedFault,
) -> u8
    ensures { HasStatus result }
{
    let outcome = Err(refused.fault);
    match name {
        "-" => reported(rt, &outcome),
        _ => {
            let lines = Lines::File(refused.name.as_str());
            reported_in(rt, &lines, form, &[], &outcome)
        }
    }
}

/// The form of a job's errors.
fn form_for(job: &Job) -> Form {
    match job {
        Job::Lint { json, .. } => form_of(*json),
        _ => Form::Text,
    }
}

/// Reports the fault of a job's outcome for a text, if it has one: that of its file as compilers
/// do. Answers the exit status.
fn reported_of<Rt: AllocGlobal + Print + Eprint>(
    rt: &Rt,
    job: &Job,
    text: &FileText<'_>,
    outcome: Result<Ending, ServeError>,
) -> u8
    ensures { result ≡ status_of outcome }
{
    let answer = status(&outcome);
    let outcome = text.as_written(outcome);
    let _ = match (job.file(), form_for(job)) {
        (None, Form::Text) => reported(rt, &outcome),
        (_, form) => reported_in(rt, &text.lines(), form, text.written(), &outcome),
    };
    answer
}

/// Serves a job for the text of a file. `lint` and `list` read text of the larger language by
/// themselves, and `list` has the warnings of `lint` below its listing. A session has no listing.
fn served<Rt: AllocGlobal + Threads + Clock + Sync, W: Write>(
    rt: &Rt,
    writer: &mut W,
    text: &FileText<'_>,
    job: &Job,
) -> Result<Ending, ServeError> {
    match job {
        Job::Lint { deny, json, .. } => {
            let told = warnings(rt.alloc(), &text.lines(), form_of(*json), text.bytes())?;
            write_output(writer, told.as_bytes(), &mut Writes::default())?;
            Ok(if *deny && !told.is_empty() {
                Ending::Denied
            } else {
                Ending::Done
            })
        }
        Job::List { labels: false, .. } if !is_session(text.bytes()) => {
            list_with_warnings(rt.alloc(), writer, text)
        }
        _ => serve_file(rt, writer, job, text.bytes()),
    }
}

/// Writes the listing of a text, with the lines that were written, and the warnings about it, if
/// there are any, below an empty line.
fn list_with_warnings<W: Write>(
    alloc: Global,
    writer: &mut W,
    text: &FileText<'_>,
) -> Result<Ending, ServeError> {
    let listing = written_listing(alloc, &text.lines(), text.bytes())?;
    let told = warnings(alloc, &text.lines(), Form::Text, text.bytes())?;
    let below = if told.is_empty() {
        told
    } else {
        format!(in alloc; "\n{told}")?
    };
    let mut writes = Writes::default();
    write_output(writer, listing.as_bytes(), &mut writes)?;
    write_output(writer, below.as_bytes(), &mut writes)?;
    Ok(Ending::Done)
}

/// Writes the numbers of a profile as JSON. Answers the exit status.
fn numbers_status<Rt: AllocGlobal + Print + Eprint>(
    rt: &Rt,
    job: &Job,
    loading: &Loading,
    start: WindowStart,
    turns: Option<u32>,
    text: &FileText<'_>,
) -> u8 {
    let numbers = match numbers_of(rt.alloc(), job, loading, start, turns, text.bytes()) {
        Ok(numbers) => numbers,
        Err(fault) => return reported_of(rt, job, text, Err(fault)),
    };
    let mut writer = io::writer(rt);
    match write_output(&mut writer, numbers.as_bytes(), &mut Writes::default()) {
        Ok(()) => status(&Ok(Ending::Done)),
        Err(fault) => reported_of(rt, job, text, Err(fault)),
    }
}

/// Writes a viewer's save file for a waveform, and then the waveform to standard output. Answers
/// the exit status.
fn trace_status<Rt: AllocGlobal + Print + Eprint + Threads + Clock + Sync + Files>(
    rt: &Rt,
    job: &Job,
    loading: &Loading,
    nodes: &Option<String>,
    save: &str,
    text: &FileText<'_>,
) -> u8 {
    if let Some(why) = lost_by(rt, save, text) {
        return refuse(rt, refusal(rt.alloc(), ArgumentConflict, why));
    }
    let (waveform, saved) = match traced(rt, job, loading, nodes, text.bytes()) {
        Ok(made) => made,
        Err(fault) => return reported_of(rt, job, text, Err(fault)),
    };
    if let Err(fault) = put(rt, save, saved.as_str()) {
        return report_on_replaced(rt, save, fault);
    }
    let outcome = waveform.write(rt.alloc(), &mut io::writer(rt), job);
    reported_of(rt, job, text, outcome)
}

/// What would be lost if the save file of a waveform had a name.
fn lost_by<Rt: AllocGlobal + Files>(
    rt: &Rt,
    save: &str,
    text: &FileText<'_>,
) -> Option<&'static str> {
    if text.has_file(rt, save) {
        return Some("the save file would replace FILE");
    }
    if text.has_source(rt, save) {
        return Some("the save file would replace the source that FILE names");
    }
    if is_standard_output(rt, save) {
        return Some("the save file would replace the waveform, which goes there, too");
    }
    None
}

/// The waveform of a job for its input, and a viewer's save file for it.
fn traced<Rt: AllocGlobal + Threads + Clock + Sync>(
    rt: &Rt,
    job: &Job,
    loading: &Loading,
    nodes: &Option<String>,
    input: &[u8],
) -> Result<(Output, String), ServeError>
    ensures waveform { IfOk result (λ made.
        IsReadBy (file_of job.now) (IsOutput job.now) input.now (Ok (text_of made.0))) }
    ensures pieces { IfOk result (λ made.
        in_pieces made.0 ≡ true → writes_pieces job.now ≡ true) }
    ensures saved { IfOk result (λ made. IsSaved job.now loading.now
        (option_map string_bytes nodes.now) input.now (string_bytes made.1)) }
{
    let alloc = rt.alloc();
    let waveform = match job.file() {
        None => output_of(rt, job, input)?,
        Some(_) => output_of_file(rt, job, input)?,
    };
    let live = opened(alloc, job, loading, input)?;
    Ok((waveform, save_text(alloc, &live, nodes)?))
}

/// Talks with the session of a file. Answers the exit status.
fn talk_status<Rt: AllocGlobal + Print + Eprint + Files, R: Read + IsTerminal>(
    rt: &Rt,
    reader: &mut R,
    job: &Job,
    loading: &Loading,
    name: &str,
) -> u8 {
    let text = match file_text(rt, reader, name, job) {
        Ok(text) => text,
        Err(refused) if refused.fault == ServeError::Input(InputFault::NoFile) => {
            return refuse_missing(rt, name);
        }
        Err(refused) => return refused_status(rt, name, Form::Text, refused),
    };
    let outcome = match talk_about(rt, reader, loading, &text) {
        Ok(()) => Ok(Ending::Done),
        Err(fault) => Err(fault),
    };
    match name {
        "-" => reported(rt, &outcome),
        _ => reported_in(rt, &text.lines(), Form::Text, text.written(), &outcome),
    }
}

/// Talks with the session of a text.
fn talk_about<Rt: AllocGlobal + Print + Files, R: Read + IsTerminal>(
    rt: &Rt,
    reader: &mut R,
    loading: &Loading,
    text: &FileText<'_>,
) -> Result<(), ServeError> {
    let alloc = rt.alloc();
    let live = match text.transcript() {
        Some(transcript) => transcript.open_session(alloc)?,
        None => open_file(alloc, loading, text.bytes())?,
    };
    let mut conversation = Conversation::new(alloc, live, reader.is_terminal())?;
    let typed = EndsOnce {
        reader,
        has_ended: false,
    };
    let Ok(mut lines) = BufReader::new(alloc, typed) else {
        return Err(ServeError::Memory);
    };
    let mut saves = SavedFiles { alloc, files: rt };
    conversation.talk(alloc, &mut saves, &mut lines, &mut io::writer(rt))
}

/// Serves a job, and reports its fault if it fails. Answers the exit status.
fn serve_job<Rt: AllocGlobal + Eprint + Threads + Clock + Sync, R: Read, W: Write>(
    rt: &Rt,
    reader: &mut R,
    writer: &mut W,
    job: &Job,
) -> u8
    ensures status { HasStatus result }
    // If the bytes of the reader and the writer are known, it is the status of what `serve`
    // answers.
    ensures served { IfSome (R.remaining reader.old) (λ input.
        HasServed job.now input (W.contents writer.old) (W.contents writer.new) result) }
{
    let outcome = serve(rt, reader, writer, job);
    reported(rt, &outcome)
}

/// The job that the arguments of the program name. The kit's contract has nothing about the
/// arguments, so this one promises no more.
fn job_of_arguments<R: Env + AllocGlobal>(rt: &R) -> Result<Job, LineError>
    ensures { IfOk result InRange }
{
    let alloc = rt.alloc();
    match env::args(&(Named { environment: rt }, alloc)) {
        Ok(arguments) => {
            let words: Vec<String> = arguments.collect(alloc)?;
            job_of_words(alloc, &words)
        }
        Err(error) if error.kind() == OutOfMemory => Err(LineError::Memory),
        Err(_) => Err(refusal(alloc, InvalidValue, "an argument is not UTF-8")),
    }
}

/// The job that the words of a command line name, of which the first is the program's name.
fn job_of_words(alloc: Global, words: &[String]) -> Result<Job, LineError>
    ensures in_range { IfOk result InRange }
    ensures named { IfOk result (IsJobOf (map string_bytes words.now)) }
    // Right words are refused only when out of memory.
    ensures right { IfErr result (λ error. (job : Job) → IsRight (map string_bytes words.now) job
        → error ≡ LineError.Memory) }
{
    let mut line = Vec::new(alloc);
    for word in words {
        if line.push(word.as_str()).is_err() {
            return Err(LineError::Memory);
        }
    }
    job(alloc, &line)
}
