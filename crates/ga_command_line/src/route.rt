ghost use Rattle.std.specs.Prelude.{◌≡◌, IfErr, IfOk, string_bytes};
ghost use Rattle.clap.specs.Words.{Text, found_of, rows_of};
ghost use Rattle.ga_command_line.specs.Route.{IsRouteAt};

use crate::command_line::{LineError, refusal};
use clap::ArgMatches;
use clap::error::ErrorKind;
use std::alloc::Global;

/// The argument ROUTE as text. It is read after the input, since the input's faults come first.
pub fn route_at(alloc: Global, found: &ArgMatches<'_>) -> Result<String, LineError>
    ensures route { IfOk result (λ route. IsRouteAt (rows_of (found_of found.now))
        (string_bytes route)) }
    ensures right { IfErr result (λ error. (route : Text)
        → IsRouteAt (rows_of (found_of found.now)) route
        → error ≡ LineError.Memory) }
{
    match found.get_str("ROUTE") {
        Some(route) => Ok(String::from_str(alloc, route)?),
        None => Err(refusal(
            alloc,
            ErrorKind::MissingRequiredArgument,
            "a route is missing",
        )),
    }
}
