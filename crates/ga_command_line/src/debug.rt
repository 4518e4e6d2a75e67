ghost use Rattle.std.specs.Prelude.{◌≡◌, IfErr, IfOk, codes};
ghost use Rattle.clap.specs.Words.{found_of, rows_of};
ghost use Rattle.ga_command_line.specs.CommandLine.{AsksFor, InRange, command_of};
ghost use Rattle.ga_command_line.specs.declared.Subcommand.TheVariants as sub;
ghost use Rattle.ga_command_line.specs.inner.Command.{IsCommandOf};

use crate::argument::{ANY_SOURCE, Argument, PLACE, ROUTE, Takes, command_with};
use crate::command_line::{LineError, refusal};
use crate::file::file_in;
use crate::flag::flag_in;
use crate::loading::loading_in;
use clap::error::ErrorKind;
use clap::{ArgMatches, Command};
use ga_input::Loading;
use ga_jobs::Job;
use std::alloc::{AllocError, Global};

const HELP: &str = "\
With FILE: the prompt. Loads the chip from FILE, and then reads commands from standard input, line by line.
Each is done at once, and its reply is written before the next is read. FILE is a transcript, whose commands
are done first; the head of a session, which may name its source as for check; or source text, whose words are
placed in their nodes.

  help [COMMAND]  the commands
  back [K]        undoes the last K commands, or the last one
  save FILE       writes the session as a transcript, to be kept as a test; save! replaces a file
  quit            ends the program, as does the end of the input

Without FILE: reads a session from standard input: the line 'profile 2'; the line 'place', or 'route' and a
ROUTE as for boot; source text; the line 'go'; and commands.
Writes the reply to each command, or 'refused' and the reason, and goes on.

  break NNN HHH   node NNN, three digits, is held before it fetches at address HHH, three hex digits
  clear NNN HHH   it isn't held there any more
  pass NNN        a node that is held isn't held at its next fetch
  try NNN SIDE    one try of the node; in a multiport read it takes from the side r, d, l or u
  turn K          K turns, up to 1000000: each tries all 144 nodes once. The turns' sides are right,
                  down, left, up, and again. Use at least 4 turns: fewer don't look at every port, so
                  'moved 0' doesn't show that no node can move
  regs NNN        the node's registers; mem NNN its memory; ports NNN how many words it wrote at each
                  port, and how many of them were read

Example: printf 'profile 2\\nplace\\nnode 000 .\\ngo\\nturn 4\\nregs 000\\n' | ga-bench debug
More: docs/GUIDE.md, and 'debug FILE' and Sessions in docs/FORMATS.md";

/// What the prompt begins with.
const FILE: Argument = Argument {
    id: "FILE",
    long: None,
    takes: Takes::Text,
    required: false,
    help: "The transcript, session or source text for the prompt; without it a session is read",
};

/// The subcommand `debug [--place | --route ROUTE] [--any-source] [FILE]`.
pub fn command<'a>(alloc: Global) -> Result<Command<'a>, AllocError>
    ensures { IfOk result (IsCommandOf (command_of sub.Debug)) }
{
    command_with(
        alloc,
        "debug",
        "Loads source text into a chip, runs commands on it, and prints the replies",
        HELP,
        &[PLACE, ROUTE, ANY_SOURCE, FILE],
    )
}

/// The job for the arguments of `debug`.
pub fn job_of(alloc: Global, found: &ArgMatches<'_>) -> Result<Job, LineError>
    ensures in_range { IfOk result InRange }
    ensures asked { IfOk result (AsksFor (codes "debug", rows_of (found_of found.now))) }
    ensures right { IfErr result (λ error. (job : Job)
        → AsksFor (codes "debug", rows_of (found_of found.now)) job → error ≡ LineError.Memory) }
{
    let loading = loading_in(alloc, found)?;
    let any_source = flag_in(found, "ANY");
    match (file_in(alloc, found)?, loading) {
        (Some(file), loading) => Ok(Job::Talk {
            loading,
            file,
            any_source,
        }),
        (None, Loading::Any) => Ok(Job::Debug),
        (None, Loading::Place | Loading::Route(_)) => Err(refusal(
            alloc,
            ErrorKind::MissingRequiredArgument,
            "--place and --route go with a FILE",
        )),
    }
}
