//! Where a profile begins.
ghost use Rattle.std.specs.Prelude.{◌≡◌, ◌≤◌, ℕ, IfErr, IfOk, IfSome, None};
ghost use Rattle.clap.specs.Words.{found_of, rows_of};
ghost use Rattle.ga_command_line.specs.Number.{WritesNumber};
ghost use Rattle.ga_command_line.specs.Start.{IsStartAt, IsStartInRange, NamesStart};

use crate::command_line::{LineError, refusal};
use crate::number::TURNS_LIMIT;
use clap::ArgMatches;
use clap::error::ErrorKind;
use ga_profile::WindowStart;
use std::alloc::Global;

/// The start of the profile, by the arguments.
pub fn start_in(alloc: Global, found: &ArgMatches<'_>) -> Result<WindowStart, LineError>
    ensures in_range { IfOk result IsStartInRange }
    ensures start { IfOk result (IsStartAt (rows_of (found_of found.now))) }
    ensures right { IfErr result (λ error. (start : WindowStart) → IsStartInRange start
        → IsStartAt (rows_of (found_of found.now)) start → error ≡ LineError.Memory) }
{
    let Some(text) = found.get_str("WHERE") else {
        return Ok(WindowStart::LastNode);
    };
    match start_named(text) {
        Some(start) => Ok(start),
        None => Err(refusal(
            alloc,
            ErrorKind::ValueValidation,
            "--from takes last, first, or the number of a turn up to 1000000",
        )),
    }
}

/// The start of a profile that a text names.
fn start_named(text: &str) -> Option<WindowStart>
    ensures in_range { IfSome result IsStartInRange }
    ensures named { IfSome result (NamesStart text.now) }
    ensures none { result ≡ None → (start : WindowStart) → IsStartInRange start
        → ¬ NamesStart text.now start }
{
    match text {
        "last" => Some(WindowStart::LastNode),
        "first" => Some(WindowStart::FirstNode),
        _ => {
            let number = turn_named(text)?;
            Some(WindowStart::Turn(number))
        }
    }
}

/// The number of a turn that a text writes.
fn turn_named(text: &str) -> Option<u32>
    ensures in_range { IfSome result (λ number. number ≤ 1000000) }
    ensures named { IfSome result (WritesNumber text.now) }
    ensures none { result ≡ None → (number : ℕ) → number ≤ 1000000
        → ¬ WritesNumber text.now number }
{
    match text.parse::<u32>() {
        Ok(number) if number <= TURNS_LIMIT => Some(number),
        _ => None,
    }
}
