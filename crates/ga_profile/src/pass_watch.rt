//! An observer of the passes of all nodes.
ghost use Rattle.std.specs.Prelude.{◌≡◌, [], IfOk, length, replicate};
ghost use Rattle.ga_profile.specs.Passes.{NO_PASSES};
ghost use Rattle.ga_profile.specs.inner.KeptPasses.{KeptPasses};

use crate::passes::{Passes, no_passes, passed, place_of};
use ga_observe::{Observer, Step};
use std::alloc::{AllocError, Global};

/// How many places all nodes have.
const PLACES: usize = 36864;

/// The passes through each place in the turns from a turn on.
#[derive(Drop)]
pub(crate) struct PassWatch {
    from: u64,
    pub(crate) places: Vec<Passes>,
    ghost all: { length places.items ≡ 36864 },
}

impl PassWatch {
    /// The passes from a turn on.
    pub(crate) fn new(alloc: Global, from: u64) -> Result<Self, AllocError>
        ensures from { IfOk result (λ watch. watch.from ≡ from) }
        ensures kept { IfOk result (λ watch. KeptPasses from watch.places.items []) }
    {
        Ok(PassWatch {
            from,
            places: unpassed(alloc)?,
        })
    }
}

/// No passes, at each place.
fn unpassed(alloc: Global) -> Result<Vec<Passes>, AllocError>
    ensures { IfOk result (λ places. places.items ≡ replicate 36864 NO_PASSES) }
{
    let none = no_passes();
    let places = vec![in alloc; none; PLACES]?;
    Ok(places)
}

impl Observer for PassWatch {
    ghost use Rattle.std.specs.Prelude.{◌≡◌};
    ghost use Rattle.ga_profile.specs.inner.KeptPasses.{KeptPasses};

    ghost has_seen = { λ begun watch steps. (watch.from ≡ begun.from)
        × KeptPasses begun.from watch.places.items steps };

    fn see(&mut self, step: Step) {
        if step.turn < self.from {
            return;
        }
        if let Some(place) = place_of(&step) {
            self.places[place] = passed(&self.places[place], &step);
        }
    }
}
