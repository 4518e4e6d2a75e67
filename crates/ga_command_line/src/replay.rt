ghost use Rattle.std.specs.Prelude.{IfOk, codes};
ghost use Rattle.clap.specs.Words.{found_of, rows_of};
ghost use Rattle.ga_command_line.specs.CommandLine.{AsksFor, InRange, command_of};
ghost use Rattle.ga_command_line.specs.declared.Subcommand.TheVariants as sub;
ghost use Rattle.ga_command_line.specs.inner.Command.{IsCommandOf};

use crate::argument::{Argument, Takes, command_with};
use crate::file::file_in;
use clap::{ArgMatches, Command};
use ga_jobs::Job;
use std::alloc::{AllocError, Global};

const HELP: &str = "\
Reads a replay text from FILE or standard input: the line 'profile 2' or 'profile 1'; the line 'place', or
'route' and a ROUTE as for boot; source text; the line 'go'; and commands with their results. Runs the
commands, and writes 'same' and the number of results that were compared, if all are right. With
'profile 1' a node that is about to fetch with bit 9 of P set counts as stopped.

  break NNN HHH, clear NNN HHH, pass NNN   as debug has them
  try NNN SIDE = OUTCOME                   OUTCOME is moved, waits, held or stopped
  turn K = STEPS                           STEPS is how many steps the turns make

It compares steps, outcomes and breakpoints, but no data. Use debug to see data.

Example: printf 'profile 2\\nplace\\nnode 000 .\\ngo\\nturn 4 = 4\\n' | ga-bench replay
More: docs/GUIDE.md, and Replay texts in docs/FORMATS.md";

/// The replay text.
const FILE: Argument = Argument {
    id: "FILE",
    long: None,
    takes: Takes::Text,
    required: false,
    help: "The replay text; standard input by default or if it is -",
};

/// The subcommand `replay [FILE]`.
pub fn command<'a>(alloc: Global) -> Result<Command<'a>, AllocError>
    ensures { IfOk result (IsCommandOf (command_of sub.Replay)) }
{
    command_with(
        alloc,
        "replay",
        "Runs the commands of a replay text, and compares their results",
        HELP,
        &[FILE],
    )
}

/// The job for the arguments of `replay`.
pub fn job_of(alloc: Global, found: &ArgMatches<'_>) -> Result<Job, AllocError>
    ensures in_range { IfOk result InRange }
    ensures asked { IfOk result (AsksFor (codes "replay", rows_of (found_of found.now))) }
{
    let file = file_in(alloc, found)?;
    Ok(Job::Replay { file })
}
