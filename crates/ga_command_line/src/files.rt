ghost use Rattle.std.specs.Prelude.{◌≡◌, IfOk, map, string_bytes};
ghost use Rattle.clap.specs.Words.{found_of, rows_of};
ghost use Rattle.ga_command_line.specs.File.{files_at};

use clap::ArgMatches;
use std::alloc::{AllocError, Global};

/// The files that the arguments name.
pub fn files_in(alloc: Global, found: &ArgMatches<'_>) -> Result<Vec<String>, AllocError>
    ensures { IfOk result (λ files. map string_bytes files.items
        ≡ files_at (rows_of (found_of found.now))) }
{
    match found.get_strs("FILE") {
        Some(names) => texts_of(alloc, names),
        None => Ok(Vec::new(alloc)),
    }
}

/// Texts of their own.
fn texts_of(alloc: Global, names: &[&str]) -> Result<Vec<String>, AllocError>
    ensures { IfOk result (λ texts. map string_bytes texts.items
        ≡ map (λ name. name.now) names.now) }
{
    let mut texts = Vec::new(alloc);
    for name in names {
        texts.push(String::from_str(alloc, name)?)?;
    }
    Ok(texts)
}
