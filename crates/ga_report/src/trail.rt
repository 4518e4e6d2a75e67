//! Which node has a path in each column.
ghost use Rattle.std.specs.Prelude.{◌≡◌, ◌<◌, IfSome};
ghost use Rattle.ga_report.specs.Holder as spec;
ghost use Rattle.ga_report.specs.inner.Trails.{NO_TRAIL, lengthened};

use crate::columns::stride_of;
use ga_observe::Step;
use ga_profile::Window;

/// How many columns a window has at most.
pub(crate) const COLUMNS: usize = 600;

/// The last steps of a path.
#[derive(Clone, Copy)]
pub(crate) struct Trail {
    /// The turn of the last one.
    pub(crate) last: Option<u64>,
    /// For each column, the index of the node that made the last one there.
    pub(crate) nodes: [Option<u8>; COLUMNS],
}

/// A path of no steps.
pub(crate) fn no_trail() -> Trail
    ensures { result ≡ NO_TRAIL }
{
    Trail {
        last: None,
        nodes: [None; COLUMNS],
    }
}

/// The column of a turn, if the window has it.
fn column_at(part: Window, turn: u64) -> Option<usize>
    ensures value { result ≡ spec.column_at part turn }
    ensures bound { IfSome result (λ column. column < 600) }
{
    if part.first <= turn && turn < u64::from(part.end) {
        Some(((turn - part.first) / stride_of(part)) as usize)
    } else {
        None
    }
}

/// A trail with one more step.
pub(crate) fn lengthened(part: Window, trail: &Trail, step: &Step) -> Trail
    ensures { result ≡ lengthened part trail.now step.now }
{
    let mut nodes = trail.nodes;
    if let Some(column) = column_at(part, step.turn) {
        nodes[column] = Some(step.node.index() as u8);
    }
    Trail {
        last: Some(step.turn),
        nodes,
    }
}
