ghost use Rattle.std.specs.Prelude.{◌≡◌, ◌≤◌, ℕ, IfErr, IfOk, IfSome, Option, codes};
ghost use Rattle.clap.specs.Words.{found_of, rows_of};
ghost use Rattle.ga_command_line.specs.CommandLine.{AsksFor, InRange, command_of};
ghost use Rattle.ga_command_line.specs.Loading.{IsLoadingAt};
ghost use Rattle.ga_command_line.specs.Number.{IsNumberIfAt};
ghost use Rattle.ga_command_line.specs.declared.Subcommand.TheVariants as sub;
ghost use Rattle.ga_command_line.specs.inner.Command.{IsCommandOf};

use crate::argument::{PLACE, ROUTE, SESSION, TURNS, command_with};
use crate::command_line::LineError;
use crate::file::file_in;
use crate::loading::loading_in;
use crate::number::{TURNS_LIMIT, number_if};
use clap::{ArgMatches, Command};
use ga_input::Loading;
use ga_jobs::Job;
use std::alloc::{AllocError, Global};

const HELP: &str = "\
Shows the chip as a picture, as the command map of debug FILE does: a mark for what each node does, the
words that are pending with their readers, rings, and who is stuck. Reads from FILE, or from standard
input if FILE is left out or is -: a session or a transcript, whose commands are done first, and which in
FILE may name its source as for check; or source text, whose words are placed in their nodes. Makes turns
until no node moves but those that spin, or N.

Example: printf 'node 708 right b! @b\\nnode 709 right b! @b' | ga-bench map
More: The map in docs/FORMATS.md";

/// The subcommand `map [--turns N] [--place | --route ROUTE] [FILE]`.
pub fn command<'a>(alloc: Global) -> Result<Command<'a>, AllocError>
    ensures { IfOk result (IsCommandOf (command_of sub.Map)) }
{
    command_with(
        alloc,
        "map",
        "Shows what each node does and which words are pending, as a picture",
        HELP,
        &[PLACE, ROUTE, TURNS, SESSION],
    )
}

/// The job for the arguments of `map`.
pub fn job_of(alloc: Global, found: &ArgMatches<'_>) -> Result<Job, LineError>
    ensures in_range { IfOk result InRange }
    ensures asked { IfOk result (AsksFor (codes "map", rows_of (found_of found.now))) }
    ensures right { IfErr result (λ error. (loading : Loading) (turns : Option ℕ)
        → IfSome turns (λ number. number ≤ 1000000)
        → IsLoadingAt (rows_of (found_of found.now)) loading
        → IsNumberIfAt (codes "N") (rows_of (found_of found.now)) turns
        → error ≡ LineError.Memory) }
{
    let loading = loading_in(alloc, found)?;
    let turns = number_if(alloc, found, "N", 0, TURNS_LIMIT)?;
    let file = file_in(alloc, found)?;
    Ok(Job::Map {
        loading,
        turns,
        file,
    })
}
