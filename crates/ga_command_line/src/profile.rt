ghost use Rattle.std.specs.Prelude.{◌≡◌, ◌≤◌, ℕ, IfErr, IfOk, IfSome, Option, codes};
ghost use Rattle.clap.specs.Words.{found_of, rows_of};
ghost use Rattle.ga_command_line.specs.CommandLine.{AsksFor, InRange, command_of};
ghost use Rattle.ga_command_line.specs.Loading.{IsLoadingAt};
ghost use Rattle.ga_command_line.specs.Number.{IsNumberIfAt};
ghost use Rattle.ga_command_line.specs.Start.{IsStartAt, IsStartInRange};
ghost use Rattle.ga_command_line.specs.declared.Subcommand.TheVariants as sub;
ghost use Rattle.ga_command_line.specs.inner.Command.{IsCommandOf};

use crate::argument::{Argument, PLACE, ROUTE, SESSION, TURNS, Takes, WHERE, command_with};
use crate::command_line::LineError;
use crate::file::file_in;
use crate::flag::flag_in;
use crate::loading::loading_in;
use crate::number::{TURNS_LIMIT, number_if};
use crate::start::start_in;
use clap::{ArgMatches, Command};
use ga_input::Loading;
use ga_jobs::Job;
use ga_profile::WindowStart;
use std::alloc::{AllocError, Global};

const HELP: &str = "\
Shows where a run is slow: for each node in how many turns it worked, waited for a word, and waited for its
word to be read, with a bar; how many words it took and posted; and the bottleneck, with what to change.
Reads from FILE, or from standard input if FILE is left out or is -: a session or a transcript, whose
commands are done first, and which in FILE may name its source as for check; or source text, whose words are
placed in their nodes. Makes turns until no node moves but those that spin, or N. The profile begins where
--from says.

Example: printf 'node 708 right b! 7 !b @b\\nnode 709 right b! @b !b' | ga-bench profile
More: profile in docs/FORMATS.md";

/// The numbers are written as JSON.
const JSON: Argument = Argument {
    id: "JSON",
    long: Some("json"),
    takes: Takes::Nothing,
    required: false,
    help: "Writes the numbers of the window and its nodes as JSON, on one line",
};

/// The subcommand `profile [--from WHERE] [--json] [--turns N] [--place | --route ROUTE] [FILE]`.
pub fn command<'a>(alloc: Global) -> Result<Command<'a>, AllocError>
    ensures { IfOk result (IsCommandOf (command_of sub.Profile)) }
{
    command_with(
        alloc,
        "profile",
        "Shows in how many turns each node worked and waited, and the bottleneck",
        HELP,
        &[PLACE, ROUTE, TURNS, WHERE, JSON, SESSION],
    )
}

/// The job for the arguments of `profile`.
pub fn job_of(alloc: Global, found: &ArgMatches<'_>) -> Result<Job, LineError>
    ensures in_range { IfOk result InRange }
    ensures asked { IfOk result (AsksFor (codes "profile", rows_of (found_of found.now))) }
    ensures right { IfErr result (λ error. (loading : Loading) (start : WindowStart)
        (turns : Option ℕ)
        → IfSome turns (λ number. number ≤ 1000000) → IsStartInRange start
        → IsLoadingAt (rows_of (found_of found.now)) loading
        → IsNumberIfAt (codes "N") (rows_of (found_of found.now)) turns
        → IsStartAt (rows_of (found_of found.now)) start
        → error ≡ LineError.Memory) }
{
    let loading = loading_in(alloc, found)?;
    let turns = number_if(alloc, found, "N", 0, TURNS_LIMIT)?;
    let start = start_in(alloc, found)?;
    let json = flag_in(found, "JSON");
    let file = file_in(alloc, found)?;
    Ok(Job::Profile {
        loading,
        start,
        json,
        turns,
        file,
    })
}
