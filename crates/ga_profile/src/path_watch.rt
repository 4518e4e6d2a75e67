//! An observer of the paths of a run.
ghost use Rattle.std.specs.Prelude.{◌≡◌, ◌<◌, [], get_or, IfOk, length, replicate, set};
ghost use Rattle.ga_profile.specs.Kinds.{kind_of};
ghost use Rattle.ga_profile.specs.inner.Trails.{KeptTrails, NO_TRAIL};

use crate::kinds::{Kinds, kind_of};
use crate::marks::{MARKS, mark_before, port_mark, step_mark};
use crate::trail::{Trail, lengthen, no_trail};
use ga_observe::{Observer, Step};
use std::alloc::{AllocError, Global};

/// The turns of the paths to the last step with each mark, in a window from a turn on.
#[derive(Drop)]
pub(crate) struct PathWatch {
    from: u64,
    kinds: Kinds,
    pub(crate) trails: Vec<Trail>,
    ghost all: { length trails.items ≡ 1296 },
}

impl PathWatch {
    /// A window from a turn on.
    pub(crate) fn new(alloc: Global, from: u64, kinds: Kinds) -> Result<Self, AllocError>
        ensures from { IfOk result (λ watch. watch.from ≡ from) }
        ensures kinds { IfOk result (λ watch. watch.kinds ≡ kinds) }
        ensures kept { IfOk result (λ watch.
            KeptTrails from (kind_of kinds) watch.trails.items []) }
    {
        Ok(PathWatch {
            from,
            kinds,
            trails: no_trails(alloc)?,
        })
    }
}

/// No steps, with each mark.
fn no_trails(alloc: Global) -> Result<Vec<Trail>, AllocError>
    ensures { IfOk result (λ trails. trails.items ≡ replicate 1296 NO_TRAIL) }
{
    let none = no_trail();
    let trails = vec![in alloc; none; MARKS]?;
    Ok(trails)
}

/// Puts the trail of one mark in the place of another one.
fn replace(trails: &mut Vec<Trail>, mark: usize, by: usize)
    requires mark { mark < length trails.now.items }
    requires by { by < length trails.now.items }
    ensures { trails.new.items ≡ set trails.old.items mark (get_or trails.old.items by NO_TRAIL) }
{
    if mark != by {
        trails[mark] = trails[by];
    }
}

impl Observer for PathWatch {
    ghost use Rattle.std.specs.Prelude.{◌≡◌};
    ghost use Rattle.ga_profile.specs.Kinds.{kind_of};
    ghost use Rattle.ga_profile.specs.inner.Trails.{KeptTrails};

    ghost has_seen = { λ begun watch steps. (watch.from ≡ begun.from)
        × ((watch.kinds ≡ begun.kinds)
        × KeptTrails begun.from (kind_of begun.kinds) watch.trails.items steps) };

    fn see(&mut self, step: Step) {
        let own = step_mark(step.node);
        let kind = kind_of(&self.kinds, &step);
        let before = mark_before(self.trails.as_slice(), &step);
        replace(&mut self.trails, own, before);
        lengthen(&mut self.trails[own], self.from, step.turn, kind);
        if let Some(mark) = port_mark(step.node, &step.deed) {
            replace(&mut self.trails, mark, own);
        }
    }
}
