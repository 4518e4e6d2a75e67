ghost use Rattle.std.specs.Prelude.{◌≡◌, ◌≤◌, ℕ, IfErr, IfOk, IfSome, Option, codes};
ghost use Rattle.clap.specs.Words.{found_of, rows_of};
ghost use Rattle.ga_command_line.specs.CommandLine.{AsksFor, InRange, command_of};
ghost use Rattle.ga_command_line.specs.Number.{IsNumberIfAt};
ghost use Rattle.ga_command_line.specs.Loading.{IsLoadingAt};
ghost use Rattle.ga_command_line.specs.declared.Subcommand.TheVariants as sub;
ghost use Rattle.ga_command_line.specs.inner.Command.{IsCommandOf};

use crate::argument::{Argument, PLACE, ROUTE, SESSION, TURNS, Takes, command_with};
use crate::command_line::LineError;
use crate::file::file_in;
use crate::flag::flag_in;
use crate::loading::loading_in;
use crate::number::{TURNS_LIMIT, number_if};
use clap::{ArgMatches, Command};
use ga_input::Loading;
use ga_jobs::Job;
use std::alloc::{AllocError, Global};

const HELP: &str = "\
Decides whether the schedule, the order in which nodes step, decides what a program does. Reads from
FILE, or from standard input if FILE is left out or is -: the head of a session, whose commands aren't
looked at, and which in FILE may name its source as for check; or source text, whose words are placed in
their nodes. Runs it once, until there is a verdict, or for N turns.

  race: ..                 a multiport read may take either of two words: the node that reads, and both
                           words with their writers, labels and lines. The exit status is 1
  no race: ..              the nodes are at rest, and no schedule leads elsewhere
  no race in 2 rounds ..   the run repeats itself, and no schedule has a race
  no race so far: ..       no race as far as it went

Example: printf 'node 709 $1F5 a! @\nnode 708 right a! 1 !\nnode 710 left a! 2 !' | ga-bench race
More: docs/GUIDE.md, and race in docs/FORMATS.md";

/// A transcript that leads to a race is written.
const WITNESS: Argument = Argument {
    id: "WITNESS",
    long: Some("witness"),
    takes: Takes::Nothing,
    required: false,
    help: "For a race, writes a transcript up to the moment at which both words are pending",
};

/// The subcommand `race [--turns N] [--witness] [--place | --route ROUTE] [FILE]`.
pub fn command<'a>(alloc: Global) -> Result<Command<'a>, AllocError>
    ensures { IfOk result (IsCommandOf (command_of sub.Race)) }
{
    command_with(
        alloc,
        "race",
        "Decides whether the schedule can change what a program does",
        HELP,
        &[PLACE, ROUTE, TURNS, WITNESS, SESSION],
    )
}

/// The job for the arguments of `race`.
pub fn job_of(alloc: Global, found: &ArgMatches<'_>) -> Result<Job, LineError>
    ensures in_range { IfOk result InRange }
    ensures asked { IfOk result (AsksFor (codes "race", rows_of (found_of found.now))) }
    ensures right { IfErr result (λ error. (loading : Loading) (turns : Option ℕ)
        → IfSome turns (λ number. number ≤ 1000000)
        → IsLoadingAt (rows_of (found_of found.now)) loading
        → IsNumberIfAt (codes "N") (rows_of (found_of found.now)) turns
        → error ≡ LineError.Memory) }
{
    let loading = loading_in(alloc, found)?;
    let turns = number_if(alloc, found, "N", 0, TURNS_LIMIT)?;
    let witness = flag_in(found, "WITNESS");
    let file = file_in(alloc, found)?;
    Ok(Job::Race {
        loading,
        turns,
        witness,
        file,
    })
}
