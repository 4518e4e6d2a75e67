//! What a verdict has to know of a run beside its races.
ghost use Rattle.std.specs.Prelude.{◌≡◌, ◌+◌, ◌-◌, ◌^◌, [], IfOk, cond, min};
ghost use Rattle.ga_race.specs.Reads.{is_multiport};
ghost use Rattle.ga_race.specs.Shown.{HasSeen};

use crate::race_watch::RaceWatch;
use ga_chip::Chip;
use ga_observe::{Deed, Observer, Step};
use std::alloc::{AllocError, Global};

/// A watch over a run: its races, its multiport reads, and its last step that used a port.
#[derive(Drop)]
pub(crate) struct RunWatch {
    pub(crate) races: RaceWatch,
    /// How many multiport reads took a word.
    pub(crate) multiport_reads: u64,
    /// The number of turns up to the last step that wasn't a node's own work.
    last_shared: u64,
}

impl RunWatch {
    /// The watch over a chip from now on.
    pub(crate) fn new(alloc: Global, chip: &Chip) -> Result<Self, AllocError>
        ensures start { IfOk result (λ watch. watch.races.start ≡ chip.now.cells) }
        ensures seen { IfOk result (λ watch. HasSeen watch.races []) }
        ensures reads { IfOk result (λ watch. watch.multiport_reads ≡ 0) }
    {
        Ok(RunWatch {
            races: RaceWatch::new(alloc, chip)?,
            multiport_reads: 0,
            last_shared: 0,
        })
    }

    /// For how many turns all nodes have been by themselves.
    pub(crate) fn quiet_turns(&self, turns: u64) -> u64 {
        turns.saturating_sub(self.last_shared)
    }

    /// Counts a step.
    fn count(&mut self, step: &Step)
        ensures races { self.new.races ≡ self.old.races }
        ensures reads { self.new.multiport_reads ≡ min
            (self.old.multiport_reads + cond (is_multiport step.now.deed) 1 0) (2 ^ 64 - 1) }
    {
        self.last_shared = self.shared_after(step);
        let more = u64::from(is_multiport(step.deed));
        self.multiport_reads = self.multiport_reads.saturating_add(more);
    }

    /// The number of turns up to the last step that wasn't a node's own work, after one more step.
    fn shared_after(&self, step: &Step) -> u64 {
        match step.deed {
            Deed::Own => self.last_shared,
            _ => step.turn.saturating_add(1),
        }
    }
}

/// Whether a node took a word at one of several sides.
fn is_multiport(deed: Deed) -> bool
    ensures { result ≡ is_multiport deed }
{
    match deed {
        Deed::Took { of, .. } => of.only().is_none(),
        _ => false,
    }
}

impl Observer for RunWatch {
    ghost use Rattle.ga_race.specs.inner.Watched.{HasWatched};

    ghost has_seen = { λ begun watch steps. HasWatched begun watch steps };

    fn see(&mut self, step: Step) {
        self.count(&step);
        self.races.see(step);
    }
}
