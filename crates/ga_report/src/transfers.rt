//! Words that nodes take, with the turns in which others posted them.
ghost use Rattle.std.specs.Prelude.{◌≡◌, [], ◌∷◌, ◌++◌, ◌≤◌, IfOk, None, OnOk, get_or, length, take};
ghost use Rattle.std.specs.Option.{option_to_list};
ghost use Rattle.ga_report.specs.Transfers as spec;
ghost use Rattle.ga_report.specs.Transfers.{transfers_in};

use crate::transfer_watch::TransferWatch;
use ga_chip::Chip;
use ga_observe::{Deed, Step, turns};
use ga_place::{CellId, Node, cell, neighbour};
use ga_profile::Window;
use ga_word::Word18;
use std::alloc::{AllocError, Global};

/// A word that a node took, and that another one had posted.
#[derive(Clone, Copy, Debug)]
pub struct Transfer {
    pub poster: Node,
    /// The turn of the post.
    pub posted: u64,
    pub reader: Node,
    /// The turn of the take.
    pub taken: u64,
    pub word: Word18,
}

/// The words that nodes take in a window of the run of a chip, in order of the takes: the first
/// 401 of those that were posted in the run. The chip itself makes no turn. Fails only when out of
/// memory.
pub fn transfers_in(alloc: Global, chip: &Chip, window: Window) -> Result<Vec<Transfer>, AllocError>
    ensures { IfOk result (λ transfers. transfers.items
        ≡ take 401 (transfers_in window chip.now)) }
{
    let mut chip = chip.copied(alloc)?;
    let mut watch = TransferWatch::new(alloc, window.first)?;
    let _moved = turns(&mut chip, &mut watch, window.end);
    if watch.has_failed {
        return Err(AllocError);
    }
    Ok(watch.transfers)
}

/// The transfer that a step from a turn on completes, by the turn of the last post into each cell.
pub(crate) fn transfer_by(from: u64, posts: &[Option<u64>], step: &Step) -> Option<Transfer>
    requires { length posts.now ≡ 524 }
    ensures { result ≡ spec.transfer_by from (λ cell. get_or posts.now cell None) step.now }
{
    if step.turn < from {
        return None;
    }
    match step.deed {
        Deed::Took { side, word, .. } => {
            let poster = neighbour(step.node, side)?;
            let posted = last_post(posts, cell(poster, side)?)?;
            Some(Transfer {
                poster,
                posted,
                reader: step.node,
                taken: step.turn,
                word,
            })
        }
        _ => None,
    }
}

/// The turn of the last post into a cell.
fn last_post(posts: &[Option<u64>], cell: CellId) -> Option<u64>
    requires { length posts.now ≡ 524 }
    ensures { result ≡ get_or posts.now cell None }
{
    posts[cell.index()]
}

/// The cell into which a step posts a word.
pub(crate) fn cell_posted(step: &Step) -> Option<CellId>
    ensures { result ≡ spec.cell_posted step.now.node step.now.deed }
{
    match step.deed {
        Deed::Posted(side, _) => cell(step.node, side),
        _ => None,
    }
}

/// Adds a transfer, if there is one and there are fewer than 401.
pub(crate) fn push_few(
    transfers: &mut Vec<Transfer>,
    transfer: Option<Transfer>,
) -> Result<(), AllocError>
    requires { length transfers.now.items ≤ 401 }
    ensures kept { OnOk result (transfers.new.items
        ≡ take 401 (transfers.old.items ++ option_to_list transfer)) }
    ensures few { length transfers.new.items ≤ 401 }
{
    match transfer {
        Some(transfer) => push_one(transfers, transfer),
        None => Ok(()),
    }
}

/// Adds a transfer, if there are fewer than 401.
fn push_one(transfers: &mut Vec<Transfer>, transfer: Transfer) -> Result<(), AllocError>
    requires { length transfers.now.items ≤ 401 }
    ensures kept { OnOk result (transfers.new.items
        ≡ take 401 (transfers.old.items ++ transfer ∷ [])) }
    ensures few { length transfers.new.items ≤ 401 }
{
    if transfers.len() < 401 {
        transfers.push(transfer)?;
    }
    Ok(())
}
