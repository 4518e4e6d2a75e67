//! What nodes did in a run that is watched from its first turn on.
ghost use Rattle.std.specs.Prelude.{◌≡◌, IfOk, length};
ghost use Rattle.ga_chip.specs.Chip as chips;
ghost use Rattle.ga_profile.specs.HasRun.{HasRun};
ghost use Rattle.ga_report.specs.Timeline.{up_to};

use ga_chip::Chip;
use ga_profile::{NodeTurns, TurnWatch, Window, ended};
use std::alloc::{AllocError, Global};

/// What each node did in the turns that a chip has made, all of which were watched.
pub(crate) fn nodes_by(
    alloc: Global,
    chip: &Chip,
    watch: &TurnWatch,
    turns: u32,
) -> Result<Vec<NodeTurns>, AllocError>
    ensures nodes { IfOk result (λ nodes. (start : chips.Chip)
        → HasRun 0 start turns chip.now watch.now → nodes.items ≡ up_to turns start) }
    ensures all { IfOk result (λ nodes. length nodes.items ≡ 144) }
{
    let window = Window {
        first: 0,
        end: turns,
    };
    let nodes = ended(alloc, chip, window, watch.nodes.as_slice())?;
    Ok(nodes)
}
