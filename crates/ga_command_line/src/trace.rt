ghost use Rattle.std.specs.Prelude.{◌≡◌, ◌≤◌, ℕ, IfErr, IfOk, IfSome, Option, codes, option_map, string_bytes};
ghost use Rattle.clap.specs.Words.{found_of, rows_of};
ghost use Rattle.ga_command_line.specs.CommandLine.{AsksFor, InRange, command_of};
ghost use Rattle.ga_command_line.specs.Loading.{IsLoadingAt};
ghost use Rattle.ga_command_line.specs.Number.{IsNumberIfAt};
ghost use Rattle.ga_command_line.specs.TraceLine.{IsListAt, IsSaveAt};
ghost use Rattle.ga_command_line.specs.declared.Subcommand.TheVariants as sub;
ghost use Rattle.ga_command_line.specs.inner.Command.{IsCommandOf};

use crate::argument::{Argument, PLACE, ROUTE, SESSION, TURNS, Takes, command_with};
use crate::command_line::LineError;
use crate::file::file_in;
use crate::loading::loading_in;
use crate::number::{TURNS_LIMIT, number_if};
use crate::text::text_in;
use clap::{ArgMatches, Command};
use ga_input::Loading;
use ga_jobs::Job;
use std::alloc::{AllocError, Global};

const HELP: &str = "\
Writes a waveform in VCD, for GTKWave: at each turn what each node did, where it was in its program, its
opcode, its registers, and the words at its ports, each port named by the node that reads there. Reads from
FILE, or from standard input if FILE is left out or is -: a session or a transcript, whose commands are done
first, and which in FILE may name its source as for check; or source text, whose words are placed in their
nodes. Makes turns until no node moves but those that spin, or N. One turn is 1 ns. Nothing is written if the
waveform has more than 268435456 bytes. With --save it also writes a save file for GTKWave, with the signals
to show, their forms and colours.

Example: printf 'node 708 right b! 5 !b\nnode 709 right b! @b' | ga-bench trace > out.vcd
More: trace in docs/FORMATS.md";

/// The nodes that are shown.
const LIST: Argument = Argument {
    id: "LIST",
    long: Some("nodes"),
    takes: Takes::Text,
    required: false,
    help: "The nodes that are shown, as 708,709; by default those that the source text names",
};

/// The save file.
const SAVE: Argument = Argument {
    id: "SAVE",
    long: Some("save"),
    takes: Takes::Text,
    required: false,
    help: "The name of a save file for GTKWave, which is written or replaced",
};

/// The subcommand `trace`, with `--nodes LIST`, `--save SAVE`, the options of a run, and FILE.
pub fn command<'a>(alloc: Global) -> Result<Command<'a>, AllocError>
    ensures { IfOk result (IsCommandOf (command_of sub.Trace)) }
{
    command_with(
        alloc,
        "trace",
        "Writes a run as a waveform in VCD",
        HELP,
        &[PLACE, ROUTE, TURNS, LIST, SAVE, SESSION],
    )
}

/// The nodes that the arguments name, if they name any.
fn nodes_in(alloc: Global, found: &ArgMatches<'_>) -> Result<Option<String>, AllocError>
    ensures { IfOk result (λ nodes. IsListAt (rows_of (found_of found.now))
        (option_map string_bytes nodes)) }
{
    text_in(alloc, found, "LIST")
}

/// The save file that the arguments name, if they name one.
fn save_in(alloc: Global, found: &ArgMatches<'_>) -> Result<Option<String>, AllocError>
    ensures { IfOk result (λ save. IsSaveAt (rows_of (found_of found.now))
        (option_map string_bytes save)) }
{
    text_in(alloc, found, "SAVE")
}

/// The job for the arguments of `trace`.
pub fn job_of(alloc: Global, found: &ArgMatches<'_>) -> Result<Job, LineError>
    ensures in_range { IfOk result InRange }
    ensures asked { IfOk result (AsksFor (codes "trace", rows_of (found_of found.now))) }
    ensures right { IfErr result (λ error. (loading : Loading) (turns : Option ℕ)
        → IfSome turns (λ number. number ≤ 1000000)
        → IsLoadingAt (rows_of (found_of found.now)) loading
        → IsNumberIfAt (codes "N") (rows_of (found_of found.now)) turns
        → error ≡ LineError.Memory) }
{
    let loading = loading_in(alloc, found)?;
    let turns = number_if(alloc, found, "N", 0, TURNS_LIMIT)?;
    let nodes = nodes_in(alloc, found)?;
    let save = save_in(alloc, found)?;
    let file = file_in(alloc, found)?;
    Ok(Job::Trace {
        loading,
        turns,
        nodes,
        save,
        file,
    })
}
