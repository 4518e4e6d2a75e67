ghost use Rattle.std.specs.Prelude.{◌≡◌, ◌≤◌, ℕ, IfErr, IfOk, codes};
ghost use Rattle.clap.specs.Words.{found_of, rows_of};
ghost use Rattle.ga_command_line.specs.declared.Subcommand.TheVariants as sub;
ghost use Rattle.ga_command_line.specs.inner.Command.{IsCommandOf};
ghost use Rattle.ga_command_line.specs.CommandLine.{AsksFor, InRange, command_of};
ghost use Rattle.ga_command_line.specs.Number.{IsNumberAt};

use crate::argument::{Argument, Takes, WORDS, command_with};
use crate::command_line::LineError;
use crate::file::file_in;
use crate::number::number_of;
use clap::{ArgMatches, Command};
use ga_jobs::Job;
use std::alloc::{AllocError, Global};

/// The largest number of tries of a job.
const TRIES_LIMIT: u32 = 1_000_000;

const HELP: &str = "\
Reads 1 to 64 words from FILE or standard input, each as five hex digits up to 3FFFF, separated by
spaces, tabs or line ends. They are put into the memory of node 000 from address 000 on, where the node
starts. A try is one step if the node needs nothing from outside. Otherwise it does nothing.

Writes one line: the registers of the node, its place, the number of its steps, and its need for the
next one.

Example: echo 04A12 00005 00003 2C9B2 | ga-bench one 5
More: docs/CHIP.md, and The line in docs/FORMATS.md";

/// How many tries there are.
const TRIES: Argument = Argument {
    id: "TRIES",
    long: None,
    takes: Takes::Number(0, TRIES_LIMIT),
    required: true,
    help: "How many times to try a step, from 0 to 1000000",
};

/// The subcommand `one TRIES [FILE]`.
pub fn command<'a>(alloc: Global) -> Result<Command<'a>, AllocError>
    ensures { IfOk result (IsCommandOf (command_of sub.One)) }
{
    command_with(
        alloc,
        "one",
        "Runs words in the memory of one node, and prints the node",
        HELP,
        &[TRIES, WORDS],
    )
}

/// The job for the arguments of `one`.
pub fn job_of(alloc: Global, found: &ArgMatches<'_>) -> Result<Job, LineError>
    ensures in_range { IfOk result InRange }
    ensures asked { IfOk result (AsksFor (codes "one", rows_of (found_of found.now))) }
    ensures right { IfErr result (λ error. (tries : ℕ) → tries ≤ 1000000
        → IsNumberAt (codes "TRIES") (rows_of (found_of found.now)) tries
        → error ≡ LineError.Memory) }
{
    let tries = number_of(alloc, found, "TRIES", 0, TRIES_LIMIT)?;
    let file = file_in(alloc, found)?;
    Ok(Job::One { tries, file })
}
