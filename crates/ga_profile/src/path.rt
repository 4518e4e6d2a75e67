//! How many turns each node and each line has on the path of a run.
ghost use Rattle.std.specs.Prelude.{◌≡◌, ◌<◌, ◌≤◌, IfOk, get_or, length, map};
ghost use Rattle.std.specs.List.{range_with_len};
ghost use Rattle.ga_observe.specs.Seen.{steps_seen, turns_numbered};
ghost use Rattle.ga_profile.specs.Kinds.{kind_of};
ghost use Rattle.ga_profile.specs.Lines.{line_turns};
ghost use Rattle.ga_profile.specs.Path as spec;
ghost use Rattle.ga_profile.specs.Path.{path_in, path_turns};
ghost use Rattle.ga_profile.specs.Profile as profile_spec;
ghost use Rattle.ga_profile.specs.inner.Trails.{KeptTrails};

use crate::kinds::Kinds;
use crate::lines::node_ranks;
use crate::marks::is_later;
use crate::node_turns::NodeTurns;
use crate::path_watch::PathWatch;
use crate::trail::Trail;
use crate::window::Window;
use ga_chip::Chip;
use ga_observe::turns;
use std::alloc::{AllocError, Global};

/// How many turns each node has on the path to the last step of a window of the run of a chip, in
/// order of name.
pub(crate) fn path_turns(
    alloc: Global,
    chip: &Chip,
    window: Window,
    nodes: &[NodeTurns],
) -> Result<Vec<u64>, AllocError>
    requires nodes { nodes.now ≡ profile_spec.watched window.first window.end chip.now }
    requires all { length nodes.now ≡ 144 }
    ensures turns { IfOk result (λ turns. turns.items ≡ path_turns window chip.now) }
    ensures all { IfOk result (λ turns. length turns.items ≡ 144) }
{
    let turns = kind_turns(alloc, chip, window, nodes, Kinds::Nodes, 144)?;
    Ok(turns)
}

/// How many turns each line of the ten nodes with the most turns has on the path.
pub(crate) fn line_turns(
    alloc: Global,
    chip: &Chip,
    window: Window,
    nodes: &[NodeTurns],
    paths: &[u64],
) -> Result<Vec<u64>, AllocError>
    requires nodes { nodes.now ≡ profile_spec.watched window.first window.end chip.now }
    requires all { length nodes.now ≡ 144 }
    requires paths { length paths.now ≡ 144 }
    ensures turns { IfOk result (λ turns. turns.items ≡ line_turns window chip.now paths.now) }
    ensures all { IfOk result (λ turns. length turns.items ≡ 650) }
{
    let ranks = node_ranks(paths);
    let turns = kind_turns(alloc, chip, window, nodes, Kinds::Lines(ranks), 650)?;
    Ok(turns)
}

/// How many turns each of the first kinds of steps has on the path to the last step of a window.
fn kind_turns(
    alloc: Global,
    chip: &Chip,
    window: Window,
    nodes: &[NodeTurns],
    kinds: Kinds,
    count: usize,
) -> Result<Vec<u64>, AllocError>
    requires nodes { nodes.now ≡ profile_spec.watched window.first window.end chip.now }
    requires all { length nodes.now ≡ 144 }
    requires count { count ≤ 715 }
    ensures turns { IfOk result (λ turns. turns.items
        ≡ map (λ kind. spec.turns_of (kind_of kinds) kind (path_in window chip.now))
        (range_with_len 0 count)) }
    ensures all { IfOk result (λ turns. length turns.items ≡ count) }
{
    let trails = all_trails(alloc, chip, window, kinds)?;
    let turns = first_turns(alloc, &trails[last_node(nodes) * 9], count)?;
    Ok(turns)
}

/// How many turns each of the first kinds of steps has.
fn first_turns(alloc: Global, trail: &Trail, count: usize) -> Result<Vec<u64>, AllocError>
    requires { count ≤ 715 }
    ensures turns { IfOk result (λ turns. turns.items
        ≡ map (λ kind. get_or trail.now.turns kind 0) (range_with_len 0 count)) }
    ensures all { IfOk result (λ turns. length turns.items ≡ count) }
{
    let mut turns = Vec::new(alloc);
    for kind in 0..count {
        turns.push(trail.turns[kind])?;
    }
    Ok(turns)
}

/// The turns of the paths to the last steps with each mark.
fn all_trails(
    alloc: Global,
    chip: &Chip,
    window: Window,
    kinds: Kinds,
) -> Result<Vec<Trail>, AllocError>
    ensures kept { IfOk result (λ trails. KeptTrails window.first (kind_of kinds) trails.items
        (steps_seen chip.now (turns_numbered window.end))) }
    ensures all { IfOk result (λ trails. length trails.items ≡ 1296) }
{
    let mut chip = chip.copied(alloc)?;
    let mut watch = PathWatch::new(alloc, window.first, kinds)?;
    let _moved = turns(&mut chip, &mut watch, window.end);
    Ok(watch.trails)
}

/// The index of the node that made the last step that isn't a spin.
fn last_node(nodes: &[NodeTurns]) -> usize
    requires { length nodes.now ≡ 144 }
    ensures value { result ≡ spec.last_node nodes.now 144 }
    ensures bound { result < 144 }
{
    let mut latest = 0;
    for index in 0..144 {
        latest = later_of(nodes, latest, index);
    }
    latest
}

/// The index of that of two nodes which made a later step that isn't a spin, or else the second.
fn later_of(nodes: &[NodeTurns], latest: usize, index: usize) -> usize
    requires nodes { length nodes.now ≡ 144 }
    requires latest { latest < 144 }
    requires index { index < 144 }
    ensures value { result ≡ spec.later_of nodes.now latest index }
    ensures bound { result < 144 }
{
    if is_later(nodes[latest].last, nodes[index].last) {
        latest
    } else {
        index
    }
}
