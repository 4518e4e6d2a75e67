//! An observer of the words that nodes take.
ghost use Rattle.std.specs.Prelude.{◌≡◌, ◌≤◌, ◌||◌, ℕ, [], IfOk, None, Some, get_or, if◌then◌else◌, length, replicate};
ghost use Rattle.ga_report.specs.Transfers.{posts_into};
ghost use Rattle.ga_report.specs.inner.KeptTransfers.{KeptTransfers};

use crate::transfers::{Transfer, cell_posted, push_few, transfer_by};
use ga_observe::{Observer, Step};
use std::alloc::{AllocError, Global};

/// How many cells a chip has.
const CELLS: usize = 524;

/// The transfers from a turn on, and the turn of the last post into each cell.
#[derive(Drop)]
pub(crate) struct TransferWatch {
    from: u64,
    posts: Vec<Option<u64>>,
    /// The first 401 of them.
    pub(crate) transfers: Vec<Transfer>,
    /// Whether there was no memory for one.
    pub(crate) has_failed: bool,
    ghost cells: { length posts.items ≡ 524 },
    ghost few: { length transfers.items ≤ 401 },
}

impl TransferWatch {
    /// A window from a turn on.
    pub(crate) fn new(alloc: Global, from: u64) -> Result<Self, AllocError>
        ensures from { IfOk result (λ watch. watch.from ≡ from) }
        ensures kept { IfOk result (λ watch. KeptTransfers from watch.posts.items
            watch.transfers.items watch.has_failed []) }
    {
        Ok(TransferWatch {
            from,
            posts: no_posts(alloc)?,
            transfers: Vec::new(alloc),
            has_failed: false,
        })
    }
}

/// No turn, for each cell.
fn no_posts(alloc: Global) -> Result<Vec<Option<u64>>, AllocError>
    ensures { IfOk result (λ posts. posts.items ≡ replicate 524 None) }
{
    let posts = vec![in alloc; None; CELLS]?;
    Ok(posts)
}

/// Keeps the turn of a step, if it posts a word.
fn keep_post(posts: &mut Vec<Option<u64>>, step: &Step)
    requires { length posts.now.items ≡ 524 }
    ensures all { length posts.new.items ≡ 524 }
    ensures kept { (cell : ℕ) → get_or posts.new.items cell None ≡ (if posts_into cell step.now
        then Some step.now.turn else get_or posts.old.items cell None) }
{
    if let Some(cell) = cell_posted(step) {
        posts[cell.index()] = Some(step.turn);
    }
}

/// Whether one of two tests holds.
fn either(one: bool, other: bool) -> bool
    ensures { result ≡ (one || other) }
{
    one || other
}

impl Observer for TransferWatch {
    ghost use Rattle.std.specs.Prelude.{◌≡◌};
    ghost use Rattle.ga_report.specs.inner.KeptTransfers.{KeptTransfers};

    ghost has_seen = { λ begun watch steps. (watch.from ≡ begun.from)
        × KeptTransfers begun.from watch.posts.items watch.transfers.items watch.has_failed steps };

    fn see(&mut self, step: Step) {
        let transfer = transfer_by(self.from, self.posts.as_slice(), &step);
        let failed = push_few(&mut self.transfers, transfer).is_err();
        self.has_failed = either(self.has_failed, failed);
        keep_post(&mut self.posts, &step);
    }
}
