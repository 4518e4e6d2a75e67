//! The profile of a run as JSON.
ghost use Rattle.std.specs.Prelude.{IfOk, string_bytes};
ghost use Rattle.ga_json.specs.Run.{IsRunJson};

use crate::profile::profile_json;
use ga_chip::Chip;
use ga_profile::{WindowStart, measure};
use std::alloc::{AllocError, Global};

/// The profile of a run of a chip as JSON, as [`profile_json`] writes it. The run makes turns until
/// no node moves but those that spin, or at most `most`; the window begins where `start` says. The
/// chip itself makes no turn. Fails only when out of memory.
pub fn run_json(
    alloc: Global,
    chip: &Chip,
    start: WindowStart,
    most: u32,
) -> Result<String, AllocError>
    ensures { IfOk result (λ text. IsRunJson start most chip.now (string_bytes text)) }
{
    let profile = measure(alloc, chip, start, most)?;
    profile_json(alloc, &profile)
}
