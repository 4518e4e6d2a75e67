ghost use Rattle.std.specs.Prelude.{IfOk, codes};
ghost use Rattle.clap.specs.Words.{found_of, rows_of};
ghost use Rattle.ga_command_line.specs.CommandLine.{AsksFor, InRange, command_of};
ghost use Rattle.ga_command_line.specs.declared.Subcommand.TheVariants as sub;
ghost use Rattle.ga_command_line.specs.inner.Command.{IsCommandOf};

use crate::argument::{Argument, SOURCE_TEXT, Takes, command_with};
use crate::file::file_in;
use crate::flag::flag_in;
use clap::{ArgMatches, Command};
use ga_jobs::Job;
use std::alloc::{AllocError, Global};

const HELP: &str = "\
Reads source text, which may be of the larger language, from FILE, or from standard input if FILE is left
out or is -. Writes each warning as FILE:LINE:COLUMN: warning: NAME: what it means (node NODE), and below
it the line and a caret. 'ga-bench explain NAME' has an example of each. A text with warnings assembles as
before.

With --json each warning is an object on a line, and so is each error of the text, on standard output too.

Example: printf 'node 708 right b! 5 !b' | ga-bench lint
More: Find mistakes before you run in docs/GUIDE.md, and Warnings in docs/FORMATS.md";

/// A warning is a failure.
const DENY: Argument = Argument {
    id: "DENY",
    long: Some("deny"),
    takes: Takes::Nothing,
    required: false,
    help: "Exits with status 1 if there is a warning",
};

/// Warnings and errors are written as JSON.
const JSON: Argument = Argument {
    id: "JSON",
    long: Some("json"),
    takes: Takes::Nothing,
    required: false,
    help: "Writes each warning and each error as JSON, one object on a line",
};

/// The subcommand `lint [--deny] [--json] [FILE]`.
pub fn command<'a>(alloc: Global) -> Result<Command<'a>, AllocError>
    ensures { IfOk result (IsCommandOf (command_of sub.Lint)) }
{
    command_with(
        alloc,
        "lint",
        "Warns of code that assembles, but is nearly always wrong",
        HELP,
        &[DENY, JSON, SOURCE_TEXT],
    )
}

/// The job for the arguments of `lint`.
pub fn job_of(alloc: Global, found: &ArgMatches<'_>) -> Result<Job, AllocError>
    ensures in_range { IfOk result InRange }
    ensures asked { IfOk result (AsksFor (codes "lint", rows_of (found_of found.now))) }
{
    let deny = flag_in(found, "DENY");
    let json = flag_in(found, "JSON");
    let file = file_in(alloc, found)?;
    Ok(Job::Lint { deny, json, file })
}
