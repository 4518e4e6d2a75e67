ghost use Rattle.std.specs.Prelude.{◌≡◌, IfErr, IfOk, codes};
ghost use Rattle.clap.specs.Words.{Text, found_of, rows_of};
ghost use Rattle.ga_command_line.specs.CommandLine.{AsksFor, InRange, command_of};
ghost use Rattle.ga_command_line.specs.Route.{IsRouteAt};
ghost use Rattle.ga_command_line.specs.declared.Subcommand.TheVariants as sub;
ghost use Rattle.ga_command_line.specs.inner.Command.{IsCommandOf};

use crate::argument::{ROUTE_OF_BOOT, SOURCE_TEXT, command_with};
use crate::command_line::LineError;
use crate::file::file_in;
use crate::route::route_at;
use clap::{ArgMatches, Command};
use ga_jobs::Job;
use std::alloc::{AllocError, Global};

const HELP: &str = "\
Reads source text from FILE or standard input, as asm does. Writes the boot stream for the first node: a
line 'load' with the number of words, these words, eight on a line, and 'start' in the same way. The
first part puts each node's words into its memory, the second starts the nodes. These are words for the
loader of this bench's chip, not bytes for a serial line. Several routes from one node, with '/'
between them, are a tree.

Example: echo 'node 709 .' | ga-bench boot 708,709
More: Boot streams in docs/FORMATS.md";

/// The subcommand `boot ROUTE [FILE]`.
pub fn command<'a>(alloc: Global) -> Result<Command<'a>, AllocError>
    ensures { IfOk result (IsCommandOf (command_of sub.Boot)) }
{
    command_with(
        alloc,
        "boot",
        "Assembles source text, and prints the words that boot a route or a tree",
        HELP,
        &[ROUTE_OF_BOOT, SOURCE_TEXT],
    )
}

/// The job for the arguments of `boot`.
pub fn job_of(alloc: Global, found: &ArgMatches<'_>) -> Result<Job, LineError>
    ensures in_range { IfOk result InRange }
    ensures asked { IfOk result (AsksFor (codes "boot", rows_of (found_of found.now))) }
    ensures right { IfErr result (λ error. (route : Text)
        → IsRouteAt (rows_of (found_of found.now)) route
        → error ≡ LineError.Memory) }
{
    let route = route_at(alloc, found)?;
    let file = file_in(alloc, found)?;
    Ok(Job::Boot { route, file })
}
