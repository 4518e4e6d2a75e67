ghost use Rattle.std.specs.Prelude.{IfOk, codes};
ghost use Rattle.clap.specs.Words.{found_of, rows_of};
ghost use Rattle.ga_command_line.specs.CommandLine.{AsksFor, InRange, command_of};
ghost use Rattle.ga_command_line.specs.declared.Subcommand.TheVariants as sub;
ghost use Rattle.ga_command_line.specs.inner.Command.{IsCommandOf};

use crate::argument::{ANY_SOURCE, Argument, Takes, command_with};
use crate::files::files_in;
use crate::flag::flag_in;
use clap::{ArgMatches, Command};
use ga_jobs::Job;
use std::alloc::{AllocError, Global};

const HELP: &str = "\
Reads a transcript from FILE, or from standard input if FILE is left out or is -: a text as debug reads
it up to the line 'go', and then commands and their replies. A line that begins with '> ' is a command,
and the lines behind it are its reply. A line that begins with '\\ ' is a comment.
In a FILE the source text may be one line 'source NAME', which names a file beside it or in a folder below;
with --any-source it may lie anywhere.
Writes 'same' and the number of commands if each has the reply in the text. If not, it reports the line
of the first command that differs, the expected lines with '-', and the actual lines with '+'. If none
differs, a reply 'expected ..' fails, too.
With two or more FILEs it checks each, and names it: it reports all commands that differ, with at most
ten lines of each reply, and then writes the numbers of files that passed and failed. The exit status is
1 if one failed.

The commands are those of the prompt, 'ga-bench debug FILE', where 'help' lists them. An address is three
hex digits, LABEL of its node, or LABEL+N.

Example: printf 'profile 2\\nplace\\nnode 000 .\\ngo\\n> turn 4\\nmoved 4\\n' | ga-bench check
More: Transcripts in docs/FORMATS.md";

/// The transcripts.
const FILES: Argument = Argument {
    id: "FILE",
    long: None,
    takes: Takes::Texts,
    required: false,
    help: "The transcripts; standard input by default or for -",
};

/// The subcommand `check [--any-source] [FILE]..`.
pub fn command<'a>(alloc: Global) -> Result<Command<'a>, AllocError>
    ensures { IfOk result (IsCommandOf (command_of sub.Check)) }
{
    command_with(
        alloc,
        "check",
        "Runs the commands of a transcript, and compares the replies with those in it",
        HELP,
        &[ANY_SOURCE, FILES],
    )
}

/// The job for the arguments of `check`.
pub fn job_of(alloc: Global, found: &ArgMatches<'_>) -> Result<Job, AllocError>
    ensures in_range { IfOk result InRange }
    ensures asked { IfOk result (AsksFor (codes "check", rows_of (found_of found.now))) }
{
    let files = files_in(alloc, found)?;
    let any_source = flag_in(found, "ANY");
    Ok(Job::Check { files, any_source })
}
