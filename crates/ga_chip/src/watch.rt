ghost use Rattle.std.specs.Prelude.{◌≡◌, ◌&&◌, ◌%◌, ◌<◌, ◌^◌, false, get_or, not, replicate, set, true};
ghost use Rattle.ga_node.specs.State.{is_fetch};

use crate::breaks::Breaks;
use ga_node::Place;
use std::marker::Model;

/// What a node is watched for: its breakpoints, and a pass.
#[derive(Drop)]
pub(crate) struct Watch {
    breaks: Breaks,
    pass: bool,
    // Whether there is a breakpoint or a pass.
    on: bool,
}

impl Model for Watch {
    ghost use Rattle.std.specs.Prelude.{◌≡◌, false, replicate};
    ghost use Rattle.ga_chip.specs.inner.Watch.{WatchView};

    ghost Value = { WatchView };

    ghost view = { λ watch. record { breaks = watch.breaks; pass = watch.pass } };

    ghost invariant = { λ watch. watch.on ≡ false → (watch.breaks ≡ replicate 512 false)
        × (watch.pass ≡ false) };
}

impl Watch {
    /// No breakpoint and no pass.
    pub(crate) fn new() -> Self
        ensures { result ≡ record { breaks = replicate 512 false; pass = false } }
    {
        Watch {
            breaks: Breaks::new(),
            pass: false,
            on: false,
        }
    }

    pub(crate) fn copied(&self) -> Self
        ensures { result ≡ self.now }
    {
        Watch {
            breaks: self.breaks.copied(),
            pass: self.pass,
            on: self.on,
        }
    }

    /// Whether fetches have to be looked at, since there is a breakpoint or a pass.
    #[inline(always)]
    pub(crate) fn is_on(&self) -> bool
        ensures { result ≡ false
            → (self.now.breaks ≡ replicate 512 false) × (self.now.pass ≡ false) }
    {
        self.on
    }

    /// Whether a step from this place is held: it is a fetch, the low nine bits of P are a
    /// breakpoint, and there is no pass.
    #[inline(always)]
    pub(crate) fn holds(&self, place: Place, p: u16) -> bool
        ensures { result
            ≡ (is_fetch place && (not self.now.pass && get_or self.now.breaks (p % 2 ^ 9) false)) }
    {
        place == Place::Fetch && !self.pass && self.breaks.has(p % 0x200)
    }

    pub(crate) fn has(&self, address: u16) -> bool
        requires { address < 2 ^ 9 }
        ensures { result ≡ get_or self.now.breaks address false }
    {
        self.breaks.has(address)
    }

    pub(crate) fn set(&mut self, address: u16)
        requires { address < 2 ^ 9 }
        ensures { self.new ≡ record self.old { breaks = set self.old.breaks address true } }
    {
        self.breaks.set(address);
        self.on = true;
    }

    pub(crate) fn clear(&mut self, address: u16)
        requires { address < 2 ^ 9 }
        ensures { self.new ≡ record self.old { breaks = set self.old.breaks address false } }
    {
        self.breaks.clear(address);
        self.on = self.pass || !self.breaks.is_empty();
    }

    pub(crate) fn pass(&mut self)
        ensures { self.new ≡ record self.old { pass = true } }
    {
        self.pass = true;
        self.on = true;
    }

    /// What is left at a step from this place: a fetch ends a pass.
    #[inline(always)]
    pub(crate) fn step(&mut self, place: Place)
        ensures { self.new ≡ record self.old { pass = self.old.pass && not (is_fetch place) } }
    {
        if self.on {
            self.step_on(place);
        }
    }

    /// The same, if there is a breakpoint or a pass.
    #[cold]
    #[inline(never)]
    fn step_on(&mut self, place: Place)
        ensures { self.new ≡ record self.old { pass = self.old.pass && not (is_fetch place) } }
    {
        if self.pass && place == Place::Fetch {
            self.pass = false;
            self.on = !self.breaks.is_empty();
        }
    }
}
