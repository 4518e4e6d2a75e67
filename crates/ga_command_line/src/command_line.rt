ghost use Rattle.std.specs.Prelude.{◌≡◌, IfErr, IfOk, false, map};
ghost use Rattle.clap.specs.Words.{App, app_of, found_of, kind_of, rows_of, subcommand_rows_of};
ghost use Rattle.clap.specs.declared.error.kind.ErrorKind.TheVariants.{OutOfMemory};
ghost use Rattle.ga_command_line.specs.declared.command_line.LineError.TheVariants.{Memory};
ghost use Rattle.ga_command_line.specs.Command.{linked};
ghost use Rattle.ga_command_line.specs.inner.Command.{IsCommandOf, has_globals};
ghost use Rattle.ga_command_line.specs.CommandLine.{AsksFor, InRange, IsAskedFor, IsJobOf, IsRight, bare_command, bench_command};

use crate::{SUBCOMMANDS, command_of, job_named};
use clap::error::ErrorKind;
use clap::{ArgMatches, Command};
use ga_jobs::Job;
use std::alloc::{AllocError, Global};
use thiserror::Error;

/// Why a command line names no job.
#[derive(Debug, Drop, Error)]
pub enum LineError {
    /// The words are wrong, or ask for help or the version.
    #[error("{0}")]
    Parse(clap::Error),
    /// Memory ran out.
    #[error("memory")]
    Memory,
}

impl From<clap::Error> for LineError {
    ghost from_gives = { λ error fault. kind_of error ≡ OutOfMemory → fault ≡ Memory };

    fn from(error: clap::Error) -> LineError {
        match error.kind() {
            ErrorKind::OutOfMemory => LineError::Memory,
            _ => LineError::Parse(error),
        }
    }
}

impl From<AllocError> for LineError {
    ghost from_gives = { λ _ fault. fault ≡ Memory };

    fn from(_error: AllocError) -> LineError {
        LineError::Memory
    }
}

/// Reads a command line, whose first word is the program's name. Fails with `Parse` if the words
/// are no command line, or ask for help or the version, and with `Memory` only when out of memory.
pub fn job(alloc: Global, words: &[&str]) -> Result<Job, LineError>
    ensures in_range { IfOk result InRange }
    ensures named { IfOk result (IsJobOf (map (λ word. word.now) words.now)) }
    // Right words are refused only when out of memory.
    ensures right { IfErr result (λ error. (job : Job)
        → IsRight (map (λ word. word.now) words.now) job
        → error ≡ LineError.Memory) }
{
    let matches = command(alloc)?.try_get_matches_from(words)?;
    job_in(alloc, &matches)
}

/// The job that the subcommand of a command line and its arguments name.
fn job_in(alloc: Global, matches: &ArgMatches<'_>) -> Result<Job, LineError>
    ensures in_range { IfOk result InRange }
    ensures named { IfOk result (IsAskedFor (subcommand_rows_of matches.now)) }
    ensures right { IfErr result (λ error. (job : Job)
        → IsAskedFor (subcommand_rows_of matches.now) job
        → InRange job → error ≡ LineError.Memory) }
{
    match matches.subcommand() {
        Some((name, found)) => job_named(alloc, name, found),
        None => Err(missing(alloc)),
    }
}

/// The error of a command line that names no subcommand.
pub(crate) fn missing(alloc: Global) -> LineError {
    refusal(
        alloc,
        ErrorKind::MissingSubcommand,
        "a subcommand is missing",
    )
}

/// An error that this program, not clap, finds in a command line. It shows the usage.
pub fn refusal(alloc: Global, kind: ErrorKind, message: &str) -> LineError {
    match refused(alloc, kind, message) {
        Ok(error) => LineError::from(error),
        Err(error) => LineError::from(error),
    }
}

fn refused(alloc: Global, kind: ErrorKind, message: &str) -> Result<clap::Error, AllocError> {
    command(alloc)?.error(kind, message)
}

/// The whole command.
fn command<'a>(alloc: Global) -> Result<Command<'a>, AllocError>
    ensures { IfOk result (IsCommandOf bench_command) }
{
    let mut command = bare_command(alloc)?;
    for subcommand in SUBCOMMANDS {
        command = linked(command, command_of(alloc, subcommand)?)?;
    }
    Ok(command)
}

/// The command without its subcommands.
#[tactic(auto, unfolding(crate::specs::CommandLine::bare_command))]
fn bare_command<'a>(alloc: Global) -> Result<Command<'a>, AllocError>
    ensures { IfOk result (IsCommandOf bare_command) }
{
    let command = Command::new(alloc, "ga-bench")
        .bin_name("ga-bench")?
        .version("0.1.0")
        .about("A bench for the GA144, a chip of 144 small computers")
        .after_help(STATUS_HELP)
        .subcommand_required(true);
    Ok(command)
}

/// The command with one more subcommand.
#[tactic(auto, unfolding(crate::specs::Command::linked))]
fn linked<'a>(command: Command<'a>, subcommand: Command<'a>) -> Result<Command<'a>, AllocError>
    requires command { has_globals command ≡ false }
    requires subcommand { has_globals subcommand ≡ false }
    ensures plain { IfOk result (λ made. has_globals made ≡ false) }
    ensures linked { IfOk result (λ made.
        app_of made ≡ linked (app_of command.entry) (app_of subcommand.entry)) }
{
    command.subcommand(subcommand)
}

const STATUS_HELP: &str = "\
Each command except explain reads its whole input, standard input or a file, and then writes standard
output. 'ga-bench explain NAME' explains an error, a warning, a state or a term.

Exit status: 0 if the output was written, 1 if the input was refused, a read or a write failed, race
found a race, lint --deny a warning, or record an expectation that isn't met, 2 if the command line is
wrong or there is no such FILE, 3 if the program ran out of memory.
Errors are reported on standard error.";
