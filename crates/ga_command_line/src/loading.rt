//! How source text is loaded.
ghost use Rattle.std.specs.Prelude.{◌≡◌, IfErr, IfOk};
ghost use Rattle.clap.specs.Words.{found_of, rows_of};
ghost use Rattle.ga_command_line.specs.Loading.{IsLoadingAt};

use crate::command_line::{LineError, refusal};
use crate::flag::flag_in;
use clap::ArgMatches;
use clap::error::ErrorKind;
use ga_input::Loading;
use std::alloc::Global;

/// How the arguments say that the input is loaded.
pub fn loading_in(alloc: Global, found: &ArgMatches<'_>) -> Result<Loading, LineError>
    ensures loading { IfOk result (IsLoadingAt (rows_of (found_of found.now))) }
    ensures right { IfErr result (λ error. (loading : Loading)
        → IsLoadingAt (rows_of (found_of found.now)) loading → error ≡ LineError.Memory) }
{
    match (flag_in(found, "PLACE"), found.get_str("ROUTE")) {
        (false, None) => Ok(Loading::Any),
        (true, None) => Ok(Loading::Place),
        (false, Some(route)) => Ok(Loading::Route(String::from_str(alloc, route)?)),
        (true, Some(_)) => Err(refusal(
            alloc,
            ErrorKind::ArgumentConflict,
            "source text is placed or booted, not both",
        )),
    }
}
