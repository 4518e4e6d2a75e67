//! How long a pass of each node takes.
ghost use Rattle.std.specs.Prelude.{◌≡◌, ◌<◌, IfOk, length};
ghost use Rattle.ga_observe.specs.Seen.{steps_seen, turns_numbered};
ghost use Rattle.ga_profile.specs.NodePass as spec;
ghost use Rattle.ga_profile.specs.NodePass.{most_of, node_passes};
ghost use Rattle.ga_profile.specs.inner.PlaceRead.{place_read};
ghost use Rattle.ga_profile.specs.inner.KeptPasses.{KeptPasses};

use crate::pass_watch::PassWatch;
use crate::passes::{Passes, no_passes};
use crate::window::Window;
use ga_chip::Chip;
use ga_observe::turns;
use std::alloc::{AllocError, Global};

/// A pass of a node, in the mean.
#[derive(Clone, Copy)]
pub struct NodePass {
    /// How many turns it takes, rounded down.
    pub turns: u64,
    /// In how many of them the node works, rounded down.
    pub works: u64,
}

/// The pass of each node in a window of the run of a chip, if it makes three.
pub(crate) fn node_passes(
    alloc: Global,
    chip: &Chip,
    window: Window,
) -> Result<Vec<Option<NodePass>>, AllocError>
    ensures passes { IfOk result (λ passes. passes.items ≡ node_passes window chip.now) }
    ensures all { IfOk result (λ passes. length passes.items ≡ 144) }
{
    let places = all_places(alloc, chip, window)?;
    let mut passes = Vec::new(alloc);
    for index in 0..144 {
        passes.push(pass_of(&most_passed(places.as_slice(), index)))?;
    }
    Ok(passes)
}

/// The passes through all places in a window of the run of a chip.
fn all_places(alloc: Global, chip: &Chip, window: Window) -> Result<Vec<Passes>, AllocError>
    ensures kept { IfOk result (λ places. KeptPasses window.first places.items
        (steps_seen chip.now (turns_numbered window.end))) }
    ensures all { IfOk result (λ places. length places.items ≡ 36864) }
{
    let mut chip = chip.copied(alloc)?;
    let mut watch = PassWatch::new(alloc, window.first)?;
    let _moved = turns(&mut chip, &mut watch, window.end);
    Ok(watch.places)
}

/// The passes through the place of a node that it passes most, the first of these.
fn most_passed(places: &[Passes], index: usize) -> Passes
    requires places { length places.now ≡ 36864 }
    requires index { index < 144 }
    ensures { result ≡ most_of (place_read places.now index) 256 }
{
    let mut most = no_passes();
    for place in 0..256 {
        most = more_of(&most, &places[index * 256 + place]);
    }
    most
}

/// Those of two that are more.
fn more_of(most: &Passes, other: &Passes) -> Passes
    ensures { result ≡ spec.more_of most.now other.now }
{
    if most.count < other.count {
        *other
    } else {
        *most
    }
}

/// The mean of three passes or more.
fn pass_of(passes: &Passes) -> Option<NodePass>
    ensures { result ≡ spec.pass_of passes.now }
{
    if passes.count < 4 {
        return None;
    }
    let between = passes.count - 1;
    Some(NodePass {
        turns: passes.last.turn.saturating_sub(passes.first.turn) / between,
        works: passes.last.number.saturating_sub(passes.first.number) / between,
    })
}
