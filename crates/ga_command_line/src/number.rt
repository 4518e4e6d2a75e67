ghost use Rattle.std.specs.Prelude.{◌≡◌, ℕ, ◌≤◌, IfOk, IfErr, IfSome, Option};
ghost use Rattle.clap.specs.Words.{found_of, rows_of};
ghost use Rattle.clap.specs.declared.builder.value_parser.ValueParser.TheVariants.{Unsigned};
ghost use Rattle.ga_command_line.specs.Number.{IsNumberAt, IsNumberIfAt};

use crate::command_line::{LineError, refusal};
use clap::builder::ValueParser;
use clap::error::ErrorKind;
use clap::{ArgMatches, value_parser};
use std::alloc::Global;

/// The most turns of a job.
pub const TURNS_LIMIT: u32 = 1_000_000;

/// What an argument may be: a number from `least` to `most` in decimal digits, behind a plus or
/// none. A minus is refused, also in front of 0.
pub fn number_within<'a>(least: u32, most: u32) -> ValueParser<'a>
    ensures { result ≡ Unsigned least most }
{
    value_parser!(u64).range(i64::from(least)..=i64::from(most))
}

/// The number of an argument, from `least` to `most`.
pub fn number_of(
    alloc: Global,
    found: &ArgMatches<'_>,
    id: &str,
    least: u32,
    most: u32,
) -> Result<u32, LineError>
    ensures in_range { IfOk result (λ number. (least ≤ number) × (number ≤ most)) }
    ensures number { IfOk result (IsNumberAt id.now (rows_of (found_of found.now))) }
    ensures right { IfErr result (λ error. (number : ℕ) → (least ≤ number) × (number ≤ most)
        → IsNumberAt id.now (rows_of (found_of found.now)) number → error ≡ LineError.Memory) }
{
    match number_if(alloc, found, id, least, most)? {
        Some(number) => Ok(number),
        None => Err(refused(alloc)),
    }
}

/// The number of an argument that may be left out, from `least` to `most`.
///
/// The range is checked again, since clap's contract promises it only for words before a
/// subcommand.
pub fn number_if(
    alloc: Global,
    found: &ArgMatches<'_>,
    id: &str,
    least: u32,
    most: u32,
) -> Result<Option<u32>, LineError>
    ensures in_range { IfOk result (λ found. IfSome found
        (λ number. (least ≤ number) × (number ≤ most))) }
    ensures number { IfOk result (IsNumberIfAt id.now (rows_of (found_of found.now))) }
    ensures right { IfErr result (λ error. (number : Option ℕ)
        → IfSome number (λ n. (least ≤ n) × (n ≤ most))
        → IsNumberIfAt id.now (rows_of (found_of found.now)) number → error ≡ LineError.Memory) }
{
    match found.try_get_one::<u32>(id) {
        Ok(None) => Ok(None),
        Ok(Some(number)) if least <= number && number <= most => Ok(Some(number)),
        _ => Err(refused(alloc)),
    }
}

fn refused(alloc: Global) -> LineError {
    refusal(
        alloc,
        ErrorKind::ValueValidation,
        "a number is out of its range",
    )
}
