ghost use Rattle.std.specs.Prelude.{◌≡◌, ◌≤◌, ℕ, IfErr, IfOk, IfSome, Option, codes};
ghost use Rattle.clap.specs.Words.{found_of, rows_of};
ghost use Rattle.ga_command_line.specs.CommandLine.{AsksFor, InRange, command_of};
ghost use Rattle.ga_command_line.specs.Loading.{IsLoadingAt};
ghost use Rattle.ga_command_line.specs.Number.{IsNumberIfAt};
ghost use Rattle.ga_command_line.specs.Start.{IsStartAt, IsStartInRange};
ghost use Rattle.ga_command_line.specs.declared.Subcommand.TheVariants as sub;
ghost use Rattle.ga_command_line.specs.inner.Command.{IsCommandOf};

use crate::argument::{PLACE, ROUTE, SESSION, TURNS, WHERE, command_with};
use crate::command_line::LineError;
use crate::file::file_in;
use crate::loading::loading_in;
use crate::number::{TURNS_LIMIT, number_if};
use crate::start::start_in;
use clap::{ArgMatches, Command};
use ga_input::Loading;
use ga_jobs::Job;
use ga_profile::WindowStart;
use std::alloc::{AllocError, Global};

const HELP: &str = "\
Writes a page in HTML that shows a run: a race, a deadlock or the bottleneck as its headline; what each node
did, turn by turn; the profile; the chip at the end, with its pending words; and the listing, with how often
each word was fetched, beside the source. It needs no script and no other file. Reads from FILE, or from
standard input if FILE is left out or is -: a session or a transcript, whose commands are done first, and which
in FILE may name its source as for check; or source text, whose words are placed in their nodes. Makes turns
until no node moves but those that spin, or N. What is shown begins where --from says.

Example: printf 'node 708 right b! !b\\nnode 709 right b! @b' | ga-bench report > r.html
More: report in docs/FORMATS.md";

/// The subcommand `report [--from WHERE] [--turns N] [--place | --route ROUTE] [FILE]`.
pub fn command<'a>(alloc: Global) -> Result<Command<'a>, AllocError>
    ensures { IfOk result (IsCommandOf (command_of sub.Report)) }
{
    command_with(
        alloc,
        "report",
        "Writes a page in HTML that shows what each node did in a run",
        HELP,
        &[PLACE, ROUTE, TURNS, WHERE, SESSION],
    )
}

/// The job for the arguments of `report`.
pub fn job_of(alloc: Global, found: &ArgMatches<'_>) -> Result<Job, LineError>
    ensures in_range { IfOk result InRange }
    ensures asked { IfOk result (AsksFor (codes "report", rows_of (found_of found.now))) }
    ensures right { IfErr result (λ error. (loading : Loading) (start : WindowStart)
        (turns : Option ℕ)
        → IfSome turns (λ number. number ≤ 1000000) → IsStartInRange start
        → IsLoadingAt (rows_of (found_of found.now)) loading
        → IsNumberIfAt (codes "N") (rows_of (found_of found.now)) turns
        → IsStartAt (rows_of (found_of found.now)) start
        → error ≡ LineError.Memory) }
{
    let loading = loading_in(alloc, found)?;
    let turns = number_if(alloc, found, "N", 0, TURNS_LIMIT)?;
    let start = start_in(alloc, found)?;
    let file = file_in(alloc, found)?;
    Ok(Job::Report {
        loading,
        start,
        turns,
        file,
    })
}
