ghost use Rattle.std.specs.Prelude.{◌≡◌, IfErr, IfOk, codes};
ghost use Rattle.clap.specs.Words.{found_of, rows_of};
ghost use Rattle.ga_command_line.specs.CommandLine.{AsksFor, InRange, command_of};
ghost use Rattle.ga_command_line.specs.declared.Subcommand.TheVariants as sub;
ghost use Rattle.ga_command_line.specs.inner.Command.{IsCommandOf};

use crate::argument::{ANY_SOURCE, Argument, Takes, command_with};
use crate::command_line::{LineError, refusal};
use crate::files::files_in;
use crate::flag::flag_in;
use clap::error::ErrorKind;
use clap::{ArgMatches, Command};
use ga_jobs::Job;
use std::alloc::{AllocError, Global};

const HELP: &str = "\
Reads a transcript, as check does, and writes it with the actual replies in place of those in it. Write
commands, each behind '> ', record them, read the replies, and keep the output as a test for check.
In a FILE the source text may be one line 'source NAME', as for check; the recording keeps that line.
With --write each FILE is replaced by its recording, in one step, or left as it is.
The exit status is 1 if a reply is 'expected ..'; it is recorded all the same.

Example: printf 'profile 2\\nplace\\nnode 000 .\\ngo\\n> turn 4\\n' | ga-bench record
More: Transcripts in docs/FORMATS.md";

/// Each FILE is replaced.
const WRITE: Argument = Argument {
    id: "WRITE",
    long: Some("write"),
    takes: Takes::Nothing,
    required: false,
    help: "Replaces each FILE by its recording",
};

/// The transcripts.
const FILES: Argument = Argument {
    id: "FILE",
    long: None,
    takes: Takes::Texts,
    required: false,
    help: "The transcript; without --write standard input by default or if it is -",
};

/// The subcommand `record [--write] [--any-source] [FILE]..`.
pub fn command<'a>(alloc: Global) -> Result<Command<'a>, AllocError>
    ensures { IfOk result (IsCommandOf (command_of sub.Record)) }
{
    command_with(
        alloc,
        "record",
        "Runs the commands of a transcript, and writes it with their replies",
        HELP,
        &[ANY_SOURCE, WRITE, FILES],
    )
}

/// The job for the arguments of `record`.
pub fn job_of(alloc: Global, found: &ArgMatches<'_>) -> Result<Job, LineError>
    ensures in_range { IfOk result InRange }
    ensures asked { IfOk result (AsksFor (codes "record", rows_of (found_of found.now))) }
    ensures right { IfErr result (λ error. (job : Job)
        → AsksFor (codes "record", rows_of (found_of found.now)) job
        → error ≡ LineError.Memory) }
{
    let mut files = files_in(alloc, found)?;
    let any_source = flag_in(found, "ANY");
    if flag_in(found, "WRITE") {
        return match files.len() {
            0 => Err(refusal(
                alloc,
                ErrorKind::MissingRequiredArgument,
                "--write needs a FILE",
            )),
            _ => Ok(Job::Rewrite { files, any_source }),
        };
    }
    match files.len() {
        0 | 1 => Ok(Job::Record {
            file: files.pop(),
            any_source,
        }),
        _ => Err(refusal(
            alloc,
            ErrorKind::TooManyValues,
            "several FILEs are recorded with --write alone",
        )),
    }
}
