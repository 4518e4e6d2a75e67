ghost use Rattle.std.specs.Prelude.{◌≡◌, ◌≤◌, ℕ, IfErr, IfOk, codes};
ghost use Rattle.clap.specs.Words.{Text, found_of, rows_of};
ghost use Rattle.ga_command_line.specs.declared.Subcommand.TheVariants as sub;
ghost use Rattle.ga_command_line.specs.inner.Command.{IsCommandOf};
ghost use Rattle.ga_command_line.specs.CommandLine.{AsksFor, InRange, command_of};
ghost use Rattle.ga_command_line.specs.Number.{IsNumberAt};
ghost use Rattle.ga_command_line.specs.Route.{IsRouteAt};

use crate::argument::{Argument, ROUTE_OF_BOOT, SOURCE_TEXT, Takes, command_with};
use crate::command_line::LineError;
use crate::file::file_in;
use crate::number::{TURNS_LIMIT, number_of};
use crate::route::route_at;
use clap::{ArgMatches, Command};
use ga_jobs::Job;
use std::alloc::{AllocError, Global};

/// The most workers of a job, one for each node of the chip.
const WORKERS_LIMIT: u32 = 144;

const HELP: &str = "\
Reads source text from FILE or standard input, as asm does. It feeds the boot stream, as boot prints it,
to the first node of a chip after reset. Workers, each a thread, run the nodes of the routes. The nodes
are assigned to them round robin, in the order in which ROUTE names them. In each turn each worker tries
each of its nodes once. The turns' sides are right, down, left, up, and again. Other nodes are never tried.

Writes for each of these nodes its registers and stacks, and how many words it wrote at each port and how
many of them were read, including those of the boot.

Example: echo 'node 709 main: $5 $7 + @b' | ga-bench run 708,709 1 200
More: docs/GUIDE.md, and Dumps in docs/FORMATS.md";

/// How many workers there are.
const WORKERS: Argument = Argument {
    id: "WORKERS",
    long: None,
    takes: Takes::Number(1, WORKERS_LIMIT),
    required: true,
    help: "How many workers share the nodes, from 1 to 144",
};

/// The turns of each worker.
const WORKER_TURNS: Argument = Argument {
    id: "TURNS",
    long: None,
    takes: Takes::Number(0, TURNS_LIMIT),
    required: true,
    help: "How many turns each worker makes, from 0 to 1000000",
};

/// The subcommand `run ROUTE WORKERS TURNS [FILE]`.
pub fn command<'a>(alloc: Global) -> Result<Command<'a>, AllocError>
    ensures { IfOk result (IsCommandOf (command_of sub.Run)) }
{
    command_with(
        alloc,
        "run",
        "Boots a route or a tree, runs its nodes in threads, and prints them",
        HELP,
        &[ROUTE_OF_BOOT, WORKERS, WORKER_TURNS, SOURCE_TEXT],
    )
}

/// The job for the arguments of `run`.
pub fn job_of(alloc: Global, found: &ArgMatches<'_>) -> Result<Job, LineError>
    ensures in_range { IfOk result InRange }
    ensures asked { IfOk result (AsksFor (codes "run", rows_of (found_of found.now))) }
    ensures right { IfErr result (λ error. (route : Text) (workers turns : ℕ)
        → ((1 ≤ workers) × (workers ≤ 144)) × (turns ≤ 1000000)
        → IsRouteAt (rows_of (found_of found.now)) route
        × IsNumberAt (codes "WORKERS") (rows_of (found_of found.now)) workers
        × IsNumberAt (codes "TURNS") (rows_of (found_of found.now)) turns
        → error ≡ LineError.Memory) }
{
    let workers = number_of(alloc, found, "WORKERS", 1, WORKERS_LIMIT)?;
    let turns = number_of(alloc, found, "TURNS", 0, TURNS_LIMIT)?;
    let route = route_at(alloc, found)?;
    let file = file_in(alloc, found)?;
    Ok(Job::Run {
        route,
        workers,
        turns,
        file,
    })
}
