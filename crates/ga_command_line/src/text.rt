ghost use Rattle.std.specs.Prelude.{◌≡◌, IfOk, option_map, string_bytes};
ghost use Rattle.clap.specs.Words.{first_of, found_of, rows_of};

use clap::ArgMatches;
use std::alloc::{AllocError, Global};

/// The text of an argument that may be left out.
pub fn text_in(
    alloc: Global,
    found: &ArgMatches<'_>,
    id: &str,
) -> Result<Option<String>, AllocError>
    ensures { IfOk result (λ text. option_map string_bytes text
        ≡ first_of id.now (rows_of (found_of found.now))) }
{
    match found.get_str(id) {
        Some(text) => Ok(Some(String::from_str(alloc, text)?)),
        None => Ok(None),
    }
}
