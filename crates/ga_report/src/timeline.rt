//! What each node does in the columns of a window.
ghost use Rattle.std.specs.Prelude.{◌≡◌, ◌+◌, ◌*◌, ◌<◌, ◌++◌, IfOk, OnOk, length};
ghost use Rattle.ga_report.specs.Columns as columns;
ghost use Rattle.ga_report.specs.Holder.{holders_in};
ghost use Rattle.ga_report.specs.Timeline as spec;
ghost use Rattle.ga_report.specs.Timeline.{counts_by, counts_in, kinds_in, most_by};

use crate::columns::{bound, columns_of};
use crate::holders::holders_in;
use crate::kind::Kind;
use crate::most::{between, most_between};
use crate::watched::nodes_by;
use ga_chip::Chip;
use ga_profile::{NodeTurns, TurnCounts, TurnWatch, Window};
use std::alloc::{AllocError, Global};

/// What each node does in the columns of a window.
#[derive(Drop)]
pub struct Timeline {
    pub window: Window,
    /// How many columns the window has.
    pub columns: usize,
    /// What each node, in order of name, does in most turns of the first column; then the same of
    /// the next column, and so on.
    pub kinds: Vec<Kind>,
    /// In how many turns of the window each node, in order of name, does what.
    pub counts: Vec<TurnCounts>,
    /// Which node has the path in each column, by its index in order of name.
    pub path: Vec<Option<u8>>,
    ghost all: { length kinds.items ≡ columns * 144 },
    ghost counted: { length counts.items ≡ 144 },
}

/// What each node does in a window of the run of a chip, in at most 600 columns of as many turns
/// each. The chip itself makes no turn. Fails only when out of memory.
pub fn timeline_in(alloc: Global, chip: &Chip, window: Window) -> Result<Timeline, AllocError>
    ensures window { IfOk result (λ timeline. timeline.window ≡ window) }
    ensures columns { IfOk result (λ timeline. timeline.columns ≡ columns.columns_of window) }
    ensures kinds { IfOk result (λ timeline. timeline.kinds.items ≡ kinds_in window chip.now) }
    ensures counts { IfOk result (λ timeline. timeline.counts.items ≡ counts_in window chip.now) }
    ensures path { IfOk result (λ timeline.
        timeline.path.items ≡ holders_in window window chip.now) }
{
    timeline_of_part(alloc, chip, window, window)
}

/// The same of a part of a window, with the path of the whole window.
pub fn timeline_of_part(
    alloc: Global,
    chip: &Chip,
    whole: Window,
    window: Window,
) -> Result<Timeline, AllocError>
    ensures window { IfOk result (λ timeline. timeline.window ≡ window) }
    ensures columns { IfOk result (λ timeline. timeline.columns ≡ columns.columns_of window) }
    ensures kinds { IfOk result (λ timeline. timeline.kinds.items ≡ kinds_in window chip.now) }
    ensures counts { IfOk result (λ timeline. timeline.counts.items ≡ counts_in window chip.now) }
    ensures path { IfOk result (λ timeline.
        timeline.path.items ≡ holders_in whole window chip.now) }
{
    let columns = columns_of(window);
    let first = bound(window, 0);
    let mut now = chip.copied(alloc)?;
    let mut watch = TurnWatch::new(alloc, 0)?;
    watch.advance(&mut now, 0, first);
    let begun = nodes_by(alloc, &now, &watch, first)?;
    let mut before = nodes_by(alloc, &now, &watch, first)?;
    let mut kinds = Vec::new(alloc);
    for column in 0..columns {
        let begin = bound(window, column);
        let end = bound(window, column + 1);
        watch.advance(&mut now, begin, end);
        let after = nodes_by(alloc, &now, &watch, end)?;
        push_column(&mut kinds, before.as_slice(), after.as_slice(), end - begin)?;
        before = after;
    }
    Ok(Timeline {
        window,
        columns,
        kinds,
        counts: counts_between(alloc, begun.as_slice(), before.as_slice())?,
        path: holders_in(alloc, chip, whole, window)?,
    })
}

/// In how many turns each node does what, by what it did before them and up to the last one.
fn counts_between(
    alloc: Global,
    before: &[NodeTurns],
    after: &[NodeTurns],
) -> Result<Vec<TurnCounts>, AllocError>
    requires before { length before.now ≡ 144 }
    requires after { length after.now ≡ 144 }
    ensures counts { IfOk result (λ counts. counts.items ≡ counts_by before.now after.now) }
    ensures all { IfOk result (λ counts. length counts.items ≡ 144) }
{
    let mut counts = Vec::new(alloc);
    for index in 0..144 {
        counts.push(between(&before[index].counts, &after[index].counts))?;
    }
    Ok(counts)
}

/// Adds what each node does in most of some turns.
fn push_column(
    kinds: &mut Vec<Kind>,
    before: &[NodeTurns],
    after: &[NodeTurns],
    turns: u32,
) -> Result<(), AllocError>
    requires before { length before.now ≡ 144 }
    requires after { length after.now ≡ 144 }
    ensures { OnOk result (kinds.new.items
        ≡ kinds.old.items ++ most_by before.now after.now turns) }
{
    for index in 0..144 {
        let counts = &before[index].counts;
        kinds.push(most_between(counts, &after[index].counts, u64::from(turns)))?;
    }
    Ok(())
}

/// What a node does in each column, by its index.
#[tactic(auto, unfolding(crate::specs::Timeline::row_of))]
pub(crate) fn row_of(
    alloc: Global,
    timeline: &Timeline,
    index: usize,
) -> Result<Vec<Kind>, AllocError>
    requires { index < 144 }
    ensures { IfOk result (λ row. row.items
        ≡ spec.row_of timeline.now.columns timeline.now.kinds.items index) }
{
    let mut row = Vec::new(alloc);
    for column in 0..timeline.columns {
        row.push(timeline.kinds[column * 144 + index])?;
    }
    Ok(row)
}
