//! The command line of the bench: the job that its words name. A subcommand has a module of its
//! name; this file lists all subcommands.
#![tactic(auto)]

ghost use Rattle.std.specs.Prelude.{◌≡◌, IfErr, IfOk};
ghost use Rattle.clap.specs.Words.{found_of, rows_of};
ghost use Rattle.ga_command_line.specs.CommandLine.{AsksFor, InRange, command_of};
ghost use Rattle.ga_command_line.specs.inner.Command.{IsCommandOf};

mod argument;
mod asm;
mod boot;
mod check;
mod command_line;
mod debug;
mod dis;
mod expand;
mod explain;
mod file;
mod files;
mod flag;
mod lint;
mod list;
mod loading;
mod map;
mod number;
mod one;
mod profile;
mod race;
mod record;
mod replay;
mod report;
mod route;
mod run;
mod start;
mod text;
mod trace;

use crate::command_line::missing;
pub use crate::command_line::{LineError, job, refusal};
use clap::{ArgMatches, Command};
use ga_jobs::Job;
use std::alloc::{AllocError, Global};

/// What a command line may ask for, in the order of help.
#[derive(Clone, Copy, PartialEq, Eq)]
pub enum Subcommand {
    One,
    Asm,
    Dis,
    Boot,
    Run,
    Debug,
    Replay,
    Expand,
    List,
    Lint,
    Race,
    Map,
    Profile,
    Trace,
    Report,
    Check,
    Record,
    Explain,
}

/// All subcommands.
const SUBCOMMANDS: [Subcommand; 18] = [
    Subcommand::One,
    Subcommand::Asm,
    Subcommand::Dis,
    Subcommand::Boot,
    Subcommand::Run,
    Subcommand::Debug,
    Subcommand::Replay,
    Subcommand::Expand,
    Subcommand::List,
    Subcommand::Lint,
    Subcommand::Race,
    Subcommand::Map,
    Subcommand::Profile,
    Subcommand::Trace,
    Subcommand::Report,
    Subcommand::Check,
    Subcommand::Record,
    Subcommand::Explain,
];

/// The command of a subcommand.
fn command_of<'a>(alloc: Global, subcommand: Subcommand) -> Result<Command<'a>, AllocError>
    ensures { IfOk result (IsCommandOf (command_of subcommand)) }
{
    match subcommand {
        Subcommand::One => one::command(alloc),
        Subcommand::Asm => asm::command(alloc),
        Subcommand::Dis => dis::command(alloc),
        Subcommand::Boot => boot::command(alloc),
        Subcommand::Run => run::command(alloc),
        Subcommand::Debug => debug::command(alloc),
        Subcommand::Replay => replay::command(alloc),
        Subcommand::Expand => expand::command(alloc),
        Subcommand::List => list::command(alloc),
        Subcommand::Lint => lint::command(alloc),
        Subcommand::Race => race::command(alloc),
        Subcommand::Map => map::command(alloc),
        Subcommand::Profile => profile::command(alloc),
        Subcommand::Trace => trace::command(alloc),
        Subcommand::Report => report::command(alloc),
        Subcommand::Check => check::command(alloc),
        Subcommand::Record => record::command(alloc),
        Subcommand::Explain => explain::command(alloc),
    }
}

/// The job of a subcommand with these arguments.
fn job_named(alloc: Global, name: &str, found: &ArgMatches<'_>) -> Result<Job, LineError>
    ensures in_range { IfOk result InRange }
    ensures named { IfOk result (AsksFor (name.now, rows_of (found_of found.now))) }
    ensures right { IfErr result (λ error. (job : Job)
        → AsksFor (name.now, rows_of (found_of found.now)) job
        → InRange job → error ≡ LineError.Memory) }
{
    match name {
        "one" => one::job_of(alloc, found),
        "asm" => Ok(asm::job_of(alloc, found)?),
        "dis" => dis::job_of(alloc, found),
        "boot" => boot::job_of(alloc, found),
        "run" => run::job_of(alloc, found),
        "debug" => debug::job_of(alloc, found),
        "replay" => Ok(replay::job_of(alloc, found)?),
        "expand" => Ok(expand::job_of(alloc, found)?),
        "list" => list::job_of(alloc, found),
        "lint" => Ok(lint::job_of(alloc, found)?),
        "race" => race::job_of(alloc, found),
        "map" => map::job_of(alloc, found),
        "profile" => profile::job_of(alloc, found),
        "trace" => trace::job_of(alloc, found),
        "report" => report::job_of(alloc, found),
        "check" => Ok(check::job_of(alloc, found)?),
        "record" => record::job_of(alloc, found),
        "explain" => explain::job_of(alloc, found),
        _ => Err(missing(alloc)),
    }
}
