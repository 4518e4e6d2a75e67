//! An observer of the paths of a run.
ghost use Rattle.std.specs.Prelude.{◌≡◌, ◌<◌, ℕ, [], IfOk, get_or, if◌then◌else◌, length, replicate};
ghost use Rattle.ga_profile.specs.Marks.{is_marked};
ghost use Rattle.ga_report.specs.inner.Trails.{KeptTrails, NO_TRAIL};

use crate::marks::{MARKS, mark_before, port_mark, step_mark};
use crate::trail::{Trail, lengthened, no_trail};
use ga_observe::{Observer, Step};
use ga_profile::Window;
use std::alloc::{AllocError, Global};

/// Which node has the path to the last step with each mark, in the columns of a window.
#[derive(Drop)]
pub(crate) struct PathWatch {
    part: Window,
    pub(crate) trails: Vec<Trail>,
    ghost all: { length trails.items ≡ 1296 },
}

impl PathWatch {
    /// No steps yet.
    pub(crate) fn new(alloc: Global, part: Window) -> Result<Self, AllocError>
        ensures part { IfOk result (λ watch. watch.part ≡ part) }
        ensures kept { IfOk result (λ watch. (from : ℕ)
            → KeptTrails from part watch.trails.items []) }
    {
        Ok(PathWatch {
            part,
            trails: no_trails(alloc)?,
        })
    }
}

/// No steps, with each mark.
fn no_trails(alloc: Global) -> Result<Vec<Trail>, AllocError>
    ensures { IfOk result (λ trails. trails.items ≡ replicate 1296 NO_TRAIL) }
{
    let none = no_trail();
    let trails = vec![in alloc; none; MARKS]?;
    Ok(trails)
}

/// Puts a trail in the place of those with the marks of a step.
fn put(trails: &mut Vec<Trail>, step: &Step, new: &Trail)
    requires { length trails.now.items ≡ 1296 }
    ensures all { length trails.new.items ≡ 1296 }
    ensures kept { (mark : ℕ) → mark < 1296 → get_or trails.new.items mark NO_TRAIL
        ≡ (if is_marked mark step.now then new.now else get_or trails.old.items mark NO_TRAIL) }
{
    trails[step_mark(step.node)] = *new;
    if let Some(mark) = port_mark(step.node, &step.deed) {
        trails[mark] = *new;
    }
}

impl Observer for PathWatch {
    ghost use Rattle.std.specs.Prelude.{◌≡◌, ℕ};
    ghost use Rattle.ga_report.specs.inner.Trails.{KeptTrails};

    ghost has_seen = { λ begun watch steps. (watch.part ≡ begun.part)
        × ((from : ℕ) → KeptTrails from begun.part watch.trails.items steps) };

    fn see(&mut self, step: Step) {
        let before = mark_before(self.trails.as_slice(), &step);
        let new = lengthened(self.part, &self.trails[before], &step);
        put(&mut self.trails, &step, &new);
    }
}
