ghost use Rattle.std.specs.Prelude.{IfOk, option_map, string_bytes};
ghost use Rattle.clap.specs.Words.{found_of, rows_of};
ghost use Rattle.ga_command_line.specs.File.{IsFileAt};

use crate::text::text_in;
use clap::ArgMatches;
use std::alloc::{AllocError, Global};

/// The file that the arguments name, if they name one.
pub fn file_in(alloc: Global, found: &ArgMatches<'_>) -> Result<Option<String>, AllocError>
    ensures { IfOk result (λ file. IsFileAt (rows_of (found_of found.now))
        (option_map string_bytes file)) }
{
    text_in(alloc, found, "FILE")
}
