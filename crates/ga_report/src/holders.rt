//! Which node has the path of a run in each column.
ghost use Rattle.std.specs.Prelude.{◌≡◌, ◌+◌, ◌≤◌, ◌<◌, ℕ, IfOk, None, get_or, length, map};
ghost use Rattle.std.specs.List.{range_with_len};
ghost use Rattle.ga_observe.specs.Seen.{steps_seen, turns_numbered};
ghost use Rattle.ga_profile.specs.Path as path;
ghost use Rattle.ga_report.specs.Columns as columns;
ghost use Rattle.ga_report.specs.Holder.{held, holders_in};
ghost use Rattle.ga_report.specs.Timeline.{up_to};
ghost use Rattle.ga_report.specs.inner.Trails.{KeptTrails};

use crate::columns::columns_of;
use crate::marks::is_later;
use crate::path_watch::PathWatch;
use crate::trail::Trail;
use crate::watched::nodes_by;
use ga_chip::Chip;
use ga_observe::turns;
use ga_profile::{NodeTurns, TurnWatch, Window};
use std::alloc::{AllocError, Global};

/// The indices of the nodes that have the path of a window of the run of a chip, in the columns of
/// a part of it. The chip itself makes no turn.
pub(crate) fn holders_in(
    alloc: Global,
    chip: &Chip,
    whole: Window,
    part: Window,
) -> Result<Vec<Option<u8>>, AllocError>
    ensures holders { IfOk result (λ holders. holders.items ≡ holders_in whole part chip.now) }
    ensures all { IfOk result (λ holders. length holders.items ≡ columns.columns_of part) }
{
    let latest = last_node(nodes_at(alloc, chip, whole.end)?.as_slice());
    let trails = all_trails(alloc, chip, part, whole.end)?;
    let holders = held_nodes(alloc, &trails[latest * 9], columns_of(part))?;
    Ok(holders)
}

/// What each node did before a turn.
fn nodes_at(alloc: Global, chip: &Chip, turn: u32) -> Result<Vec<NodeTurns>, AllocError>
    ensures nodes { IfOk result (λ nodes. nodes.items ≡ up_to turn chip.now) }
    ensures all { IfOk result (λ nodes. length nodes.items ≡ 144) }
{
    let mut chip = chip.copied(alloc)?;
    let mut watch = TurnWatch::new(alloc, 0)?;
    watch.advance(&mut chip, 0, turn);
    let nodes = nodes_by(alloc, &chip, &watch, turn)?;
    Ok(nodes)
}

/// The nodes of the paths to the last steps with each mark before a turn.
fn all_trails(alloc: Global, chip: &Chip, part: Window, turn: u32) -> Result<Vec<Trail>, AllocError>
    ensures kept { IfOk result (λ trails. (from : ℕ) → KeptTrails from part trails.items
        (steps_seen chip.now (turns_numbered turn))) }
    ensures all { IfOk result (λ trails. length trails.items ≡ 1296) }
{
    let mut chip = chip.copied(alloc)?;
    let mut watch = PathWatch::new(alloc, part)?;
    let _moved = turns(&mut chip, &mut watch, turn);
    Ok(watch.trails)
}

/// The nodes that have a path in the first columns.
fn held_nodes(alloc: Global, trail: &Trail, columns: usize) -> Result<Vec<Option<u8>>, AllocError>
    requires { columns ≤ 600 }
    ensures nodes { IfOk result (λ nodes. nodes.items
        ≡ map (λ column. held (λ at. get_or trail.now.nodes at None) (column + 1))
        (range_with_len 0 columns)) }
    ensures all { IfOk result (λ nodes. length nodes.items ≡ columns) }
{
    let mut nodes = Vec::new(alloc);
    let mut holder = None;
    for column in 0..columns {
        holder = last_in(trail, column).or(holder);
        nodes.push(holder)?;
    }
    Ok(nodes)
}

/// The node that made the last step of a path in a column.
fn last_in(trail: &Trail, column: usize) -> Option<u8>
    requires { column < 600 }
    ensures { result ≡ get_or trail.now.nodes column None }
{
    trail.nodes[column]
}

/// The index of the node that made the last step that isn't a spin.
fn last_node(nodes: &[NodeTurns]) -> usize
    requires { length nodes.now ≡ 144 }
    ensures value { result ≡ path.last_node nodes.now 144 }
    ensures bound { result < 144 }
{
    let mut latest = 0;
    for index in 0..144 {
        latest = later_of(nodes, latest, index);
    }
    latest
}

/// The index of that of two nodes which made a later step that isn't a spin, or else the second.
fn later_of(nodes: &[NodeTurns], latest: usize, index: usize) -> usize
    requires nodes { length nodes.now ≡ 144 }
    requires latest { latest < 144 }
    requires index { index < 144 }
    ensures value { result ≡ path.later_of nodes.now latest index }
    ensures bound { result < 144 }
{
    if is_later(nodes[latest].last, nodes[index].last) {
        latest
    } else {
        index
    }
}
