ghost use Rattle.std.specs.Prelude.{◌≡◌, ◌^◌, ◌<◌, ◌-◌};
ghost use Rattle.ga_chip.specs.Part.{count_at, counted};
ghost use Rattle.ga_chip.specs.Chip.{no_counts};

use ga_place::Side;
use std::marker::Model;

/// A number for each side. A contract sees them by side.
#[derive(Drop)]
pub(crate) struct Counts {
    // In the order of the sides.
    by_side: [u64; 4],
}

impl Model for Counts {
    ghost use Rattle.std.specs.Prelude.{⊤};
    ghost use Rattle.ga_chip.specs.Part as model;
    ghost use Rattle.ga_chip.specs.inner.Counts.{by_sides};

    ghost Value = { model.Counts };

    ghost view = { λ counts. by_sides counts.by_side };

    ghost invariant = { λ counts. ⊤ };
}

impl Counts {
    /// Nothing at any side.
    pub(crate) fn new() -> Self
        ensures { result ≡ no_counts }
    {
        Counts { by_side: [0; 4] }
    }

    pub(crate) fn copied(&self) -> Self
        ensures { result ≡ self.now }
    {
        Counts {
            by_side: self.by_side,
        }
    }

    #[tactic(auto, using(crate::proofs::Counting::one_at))]
    pub(crate) fn at(&self, side: Side) -> u64
        ensures { result ≡ count_at side self.now }
    {
        self.by_side[side as usize]
    }

    /// One more at a side, unless the number there is the largest.
    #[inline(always)]
    #[tactic(auto, using(crate::proofs::Counting::one_at, crate::proofs::Counting::one_more))]
    pub(crate) fn count(&mut self, side: Side)
        requires { count_at side self.old < 2 ^ 64 - 1 }
        ensures { self.new ≡ counted side self.old }
    {
        self.by_side[side as usize] += 1;
    }
}
