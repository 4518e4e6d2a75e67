ghost use Rattle.std.specs.Prelude.{◌≡◌, IfErr, IfOk, None, codes, false, option_map, string_bytes};
ghost use Rattle.clap.specs.Words.{found_of, rows_of};
ghost use Rattle.ga_command_line.specs.CommandLine.{AsksFor, InRange, command_of};
ghost use Rattle.ga_command_line.specs.Flag.{is_set};
ghost use Rattle.ga_command_line.specs.declared.Subcommand.TheVariants as sub;
ghost use Rattle.ga_command_line.specs.inner.Command.{IsCommandOf};

use crate::argument::{Argument, PLACE, ROUTE, TURNS, Takes, command_with};
use crate::command_line::{LineError, refusal};
use crate::file::file_in;
use crate::flag::flag_in;
use crate::loading::loading_in;
use crate::number::{TURNS_LIMIT, number_if};
use clap::error::ErrorKind;
use clap::{ArgMatches, Command};
use ga_input::Loading;
use ga_jobs::Job;
use std::alloc::{AllocError, Global};

const HELP: &str = "\
Reads source text from FILE, or from standard input if FILE is left out or is -. Writes for each node
the line that asm writes, and then a line for each word: its address, the word, whether it is code, a
follower or data, the line of the text in which it begins, and its instructions, with labels for
destinations. Each label has a line of its own before its word, or behind the last word. For FILE the
warnings of lint follow, but not with --labels.

With --counts it makes a run: until no node moves but those that spin, or N turns. Each line begins with how
often its word was fetched, and how often the opcode in each slot ran if that differs; the lines where a node
ran most have a mark. Then FILE may also be a session or a transcript, whose commands are done first, and
which may name its source as for check.

Example: printf 'node 709 main: dup jump main' | ga-bench list
More: Listings in docs/FORMATS.md";

/// Only labels are listed.
const LABELS: Argument = Argument {
    id: "LABELS",
    long: Some("labels"),
    takes: Takes::Nothing,
    required: false,
    help: "Writes only the labels: the node, the label and its address, a line each",
};

/// What a run made is listed, too.
const COUNTS: Argument = Argument {
    id: "COUNTS",
    long: Some("counts"),
    takes: Takes::Nothing,
    required: false,
    help: "Makes a run, and writes how often each word was fetched and each opcode ran",
};

/// What is listed.
const FILE: Argument = Argument {
    id: "FILE",
    long: None,
    takes: Takes::Text,
    required: false,
    help: "The source text, with --counts also a session; standard input by default or if it is -",
};

/// The subcommand `list [--labels | --counts [--turns N] [--place | --route ROUTE]] [FILE]`.
pub fn command<'a>(alloc: Global) -> Result<Command<'a>, AllocError>
    ensures { IfOk result (IsCommandOf (command_of sub.List)) }
{
    command_with(
        alloc,
        "list",
        "Lists the words of a source text, with their instructions and their lines in the text",
        HELP,
        &[PLACE, ROUTE, TURNS, LABELS, COUNTS, FILE],
    )
}

/// The job for the arguments of `list`.
pub fn job_of(alloc: Global, found: &ArgMatches<'_>) -> Result<Job, LineError>
    ensures in_range { IfOk result InRange }
    ensures asked { IfOk result (AsksFor (codes "list", rows_of (found_of found.now))) }
    ensures right { IfErr result (λ error. (job : Job)
        → AsksFor (codes "list", rows_of (found_of found.now)) job
        → InRange job → error ≡ LineError.Memory) }
{
    let loading = loading_in(alloc, found)?;
    let turns = number_if(alloc, found, "N", 0, TURNS_LIMIT)?;
    let file = file_in(alloc, found)?;
    match (flag_in(found, "COUNTS"), flag_in(found, "LABELS")) {
        (true, false) => Ok(Job::Counts {
            loading,
            turns,
            file,
        }),
        (true, true) => Err(refusal(
            alloc,
            ErrorKind::ArgumentConflict,
            "it lists labels or counts, not both",
        )),
        (false, labels) => match (loading, turns) {
            (Loading::Any, None) => Ok(Job::List { labels, file }),
            _ => Err(refusal(
                alloc,
                ErrorKind::MissingRequiredArgument,
                "--turns, --place and --route go with --counts",
            )),
        },
    }
}
