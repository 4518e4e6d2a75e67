ghost use Rattle.std.specs.Prelude.{◌≡◌};
ghost use Rattle.clap.specs.Words.{found_of, rows_of};
ghost use Rattle.ga_command_line.specs.Flag.{is_set};

use clap::ArgMatches;

/// Whether the arguments have a flag.
pub fn flag_in(found: &ArgMatches<'_>, id: &str) -> bool
    ensures { result ≡ is_set id.now (rows_of (found_of found.now)) }
{
    match found.get_str(id) {
        Some(given) => given == "true",
        None => false,
    }
}
