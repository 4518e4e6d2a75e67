ghost use Rattle.std.specs.Prelude.{IfOk, codes};
ghost use Rattle.clap.specs.Words.{found_of, rows_of};
ghost use Rattle.ga_command_line.specs.CommandLine.{AsksFor, InRange, command_of};
ghost use Rattle.ga_command_line.specs.declared.Subcommand.TheVariants as sub;
ghost use Rattle.ga_command_line.specs.inner.Command.{IsCommandOf};

use crate::argument::{SOURCE_TEXT, command_with};
use crate::file::file_in;
use clap::{ArgMatches, Command};
use ga_jobs::Job;
use std::alloc::{AllocError, Global};

const HELP: &str = "\
Reads source text from FILE or standard input: for each node `node`, its name in three digits, and its items.
Writes for each node a line with its entry, the number of its words of code and of all its words, and
then the words, eight on a line. FILE, here and wherever source text is read, may also have constants,
shared bodies and all else that expand reads.

Example: echo 'node 709 main: $5 $7 + @b' | ga-bench asm
More: Source text in docs/FORMATS.md";

/// The subcommand `asm [FILE]`.
pub fn command<'a>(alloc: Global) -> Result<Command<'a>, AllocError>
    ensures { IfOk result (IsCommandOf (command_of sub.Asm)) }
{
    command_with(
        alloc,
        "asm",
        "Assembles source text, and prints the words of each node",
        HELP,
        &[SOURCE_TEXT],
    )
}

/// The job for the arguments of `asm`.
pub fn job_of(alloc: Global, found: &ArgMatches<'_>) -> Result<Job, AllocError>
    ensures in_range { IfOk result InRange }
    ensures asked { IfOk result (AsksFor (codes "asm", rows_of (found_of found.now))) }
{
    let file = file_in(alloc, found)?;
    Ok(Job::Asm { file })
}
