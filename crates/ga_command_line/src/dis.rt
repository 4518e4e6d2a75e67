ghost use Rattle.std.specs.Prelude.{◌≡◌, ◌≤◌, ℕ, IfErr, IfOk, IfSome, Option, codes};
ghost use Rattle.clap.specs.Words.{found_of, rows_of};
ghost use Rattle.ga_command_line.specs.declared.Subcommand.TheVariants as sub;
ghost use Rattle.ga_command_line.specs.inner.Command.{IsCommandOf};
ghost use Rattle.ga_command_line.specs.CommandLine.{AsksFor, InRange, command_of};
ghost use Rattle.ga_command_line.specs.Number.{IsNumberIfAt};

use crate::argument::{Argument, Takes, WORDS, command_with};
use crate::command_line::LineError;
use crate::file::file_in;
use crate::number::number_if;
use clap::{ArgMatches, Command};
use ga_jobs::Job;
use std::alloc::{AllocError, Global};

/// The most words that a node's memory holds.
const CODE_LIMIT: u32 = 64;

const HELP: &str = "\
Reads 1 to 64 words from FILE or standard input, each as five hex digits up to 3FFFF, separated by
spaces, tabs or line ends. Writes a line 'node 000', and a line for each word: a word of code in
brackets, a follower or a word of data behind a comma. A line 'data' comes before the data, if there is
any. The output is source text, from which asm makes the same words.

Example: echo 05872 2C9B2 00001 | ga-bench dis --code 2
More: Source text in docs/FORMATS.md";

/// How many words are code.
const CODE: Argument = Argument {
    id: "N",
    long: Some("code"),
    takes: Takes::Number(0, CODE_LIMIT),
    required: false,
    help: "How many words are code, from 0 to 64; the rest are data. By default all are code",
};

/// The subcommand `dis [--code N] [FILE]`.
pub fn command<'a>(alloc: Global) -> Result<Command<'a>, AllocError>
    ensures { IfOk result (IsCommandOf (command_of sub.Dis)) }
{
    command_with(
        alloc,
        "dis",
        "Prints words as source text",
        HELP,
        &[CODE, WORDS],
    )
}

/// The job for the arguments of `dis`.
pub fn job_of(alloc: Global, found: &ArgMatches<'_>) -> Result<Job, LineError>
    ensures in_range { IfOk result InRange }
    ensures asked { IfOk result (AsksFor (codes "dis", rows_of (found_of found.now))) }
    ensures right { IfErr result (λ error. (code : Option ℕ)
        → IfSome code (λ number. number ≤ 64)
        → IsNumberIfAt (codes "N") (rows_of (found_of found.now)) code → error ≡ LineError.Memory) }
{
    let code = number_if(alloc, found, "N", 0, CODE_LIMIT)?;
    let file = file_in(alloc, found)?;
    Ok(Job::Dis { code, file })
}
