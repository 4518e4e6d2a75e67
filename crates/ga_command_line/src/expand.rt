ghost use Rattle.std.specs.Prelude.{IfOk, codes};
ghost use Rattle.clap.specs.Words.{found_of, rows_of};
ghost use Rattle.ga_command_line.specs.CommandLine.{AsksFor, InRange, command_of};
ghost use Rattle.ga_command_line.specs.declared.Subcommand.TheVariants as sub;
ghost use Rattle.ga_command_line.specs.inner.Command.{IsCommandOf};

use crate::argument::{Argument, Takes, command_with};
use crate::file::file_in;
use clap::{ArgMatches, Command};
use ga_jobs::Job;
use std::alloc::{AllocError, Global};

const HELP: &str = "\
Reads from FILE, or from standard input if FILE is left out or is -, text of a larger language: source
text with constants and their expressions, numbers below zero, of binary digits and of characters,
several sides, directions, addresses of labels, shared bodies, lists of nodes, and, in FILE, lines of
other files. Writes source text, which asm and all others read.

Example: printf 'const ONE -1\nnode 709 to 710 b! ONE !b' | ga-bench expand | ga-bench asm
More: Larger source text in docs/FORMATS.md";

/// The text.
const FILE: Argument = Argument {
    id: "FILE",
    long: None,
    takes: Takes::Text,
    required: false,
    help: "The text; standard input by default or if it is -",
};

/// The subcommand `expand [FILE]`.
pub fn command<'a>(alloc: Global) -> Result<Command<'a>, AllocError>
    ensures { IfOk result (IsCommandOf (command_of sub.Expand)) }
{
    command_with(
        alloc,
        "expand",
        "Expands constants, sides, directions and shared bodies to source text",
        HELP,
        &[FILE],
    )
}

/// The job for the arguments of `expand`.
pub fn job_of(alloc: Global, found: &ArgMatches<'_>) -> Result<Job, AllocError>
    ensures in_range { IfOk result InRange }
    ensures asked { IfOk result (AsksFor (codes "expand", rows_of (found_of found.now))) }
{
    let file = file_in(alloc, found)?;
    Ok(Job::Expand { file })
}
