//! A part of a window for a close-up.
ghost use Rattle.std.specs.Prelude.{◌≡◌, IfOk, None, take};
ghost use Rattle.ga_report.specs.CloseUp as spec;
ghost use Rattle.ga_report.specs.Columns as columns;
ghost use Rattle.ga_report.specs.Holder.{holders_in};
ghost use Rattle.ga_report.specs.Timeline.{counts_in, kinds_in};
ghost use Rattle.ga_report.specs.Transfers.{transfers_in};

use crate::timeline::{Timeline, timeline_of_part};
use crate::transfers::{Transfer, transfers_in};
use ga_chip::Chip;
use ga_profile::{NodePass, Profile, Window};
use std::alloc::{AllocError, Global};

/// A part of a window from near: what each node does, and which words nodes take.
#[derive(Drop)]
pub struct CloseUp {
    pub timeline: Timeline,
    /// The words that nodes take, in order of the takes. If there are many, the first 401.
    pub transfers: Vec<Transfer>,
}

/// What each node does in a part of a window of the run of a chip, with the path of the whole
/// window, and which words nodes take in the part. The chip itself makes no turn. Fails only when
/// out of memory.
pub fn close_up_in(
    alloc: Global,
    chip: &Chip,
    whole: Window,
    window: Window,
) -> Result<CloseUp, AllocError>
    ensures window { IfOk result (λ near. near.timeline.window ≡ window) }
    ensures columns { IfOk result (λ near. near.timeline.columns ≡ columns.columns_of window) }
    ensures kinds { IfOk result (λ near.
        near.timeline.kinds.items ≡ kinds_in window chip.now) }
    ensures counts { IfOk result (λ near.
        near.timeline.counts.items ≡ counts_in window chip.now) }
    ensures path { IfOk result (λ near.
        near.timeline.path.items ≡ holders_in whole window chip.now) }
    ensures transfers { IfOk result (λ near.
        near.transfers.items ≡ take 401 (transfers_in window chip.now)) }
{
    Ok(CloseUp {
        timeline: timeline_of_part(alloc, chip, whole, window)?,
        transfers: transfers_in(alloc, chip, window)?,
    })
}

/// The turns in the middle of a profile's window, for a close-up: as many as three passes of the
/// node that works most in its pass, if these are at most 600, or else as one. `None` if no node
/// has a pass, or if that is all of the window. (The choice is this project's own: profile.)
pub fn close_up_window(profile: &Profile) -> Option<Window>
    ensures { result ≡ spec.close_up_window profile.now.window profile.now.passes.items }
{
    let pass = busiest(profile.passes.as_slice())?;
    middle_of(profile.window, passes_shown(pass.turns))
}

/// The pass with the most turns in which its node works.
fn busiest(passes: &[Option<NodePass>]) -> Option<NodePass>
    ensures { result ≡ spec.busiest None passes.now }
{
    let mut found = None;
    for pass in passes {
        found = busier(found, *pass);
    }
    found
}

/// The one of two passes in which its node works more, or else the first.
fn busier(one: Option<NodePass>, other: Option<NodePass>) -> Option<NodePass>
    ensures { result ≡ spec.busier one other }
{
    match (one, other) {
        (Some(a), Some(b)) if a.works < b.works => Some(b),
        (Some(a), _) => Some(a),
        (None, b) => b,
    }
}

/// The turns of the passes that are shown: three, or one.
fn passes_shown(turns: u64) -> u64
    ensures { result ≡ spec.passes_shown turns }
{
    if turns <= 200 { turns * 3 } else { turns }
}

/// The turns in the middle of a window, if it has more.
fn middle_of(window: Window, turns: u64) -> Option<Window>
    ensures { result ≡ spec.middle_of window turns }
{
    if turns < window.length() {
        let first = window.first + (window.length() - turns) / 2;
        Some(Window {
            first,
            end: (first + turns) as u32,
        })
    } else {
        None
    }
}
