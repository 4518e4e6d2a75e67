//! Nodes that spin.
ghost use Rattle.std.specs.Prelude.{◌≡◌, ◌+◌, ◌-◌, ◌^◌, ◌<◌, ◌≤◌, IfNone, IfSome, false, true};
ghost use Rattle.ga_node.specs.Spins.{IsAhead, OwnFor, Spins, comes_back, is_spinning, uncounted};
ghost use Rattle.ga_node.specs.inner.Ahead.{FirstAgain};

use crate::state::NodeState;

/// A node is seen to spin if at most as many own steps lead back to its state: the four turns that
/// show rest show such a loop whole. (Profile.)
pub const LONGEST_SPIN: u64 = 4;

/// How many own steps `look_ahead` looks at.
const LOOKED_AHEAD: u64 = 2 * LONGEST_SPIN;

/// What is ahead of a node in own steps.
#[derive(Clone, Copy, Debug, PartialEq, Eq)]
pub enum Ahead {
    /// After this many own steps it spins, and not before.
    Spins { after: u64 },
    /// It spins in none of this many states, the first of which is the present one. Between them
    /// are own steps.
    Works { states: u64 },
}

impl NodeState {
    /// What is ahead of the node in own steps. All answers for the states of a run of own steps
    /// together take some three steps for each.
    pub fn look_ahead(&self) -> Ahead
        ensures { IsAhead self.now result }
    {
        let mut far = self.uncounted();
        let made = far.run_own(true, LOOKED_AHEAD);
        if made < LOOKED_AHEAD {
            return Ahead::Works { states: made + 1 };
        }
        match far.period(LONGEST_SPIN) {
            Some(period) => Ahead::Spins {
                after: self.first_again(period, LOOKED_AHEAD),
            },
            None => Ahead::Works { states: made + 1 },
        }
    }

    /// The least number of own steps, at most `most`, that lead back to the same state, its number
    /// of steps aside.
    pub fn period(&self, most: u64) -> Option<u64>
        ensures most { IfSome result (λ period. period ≤ most) }
        ensures spins { IfSome result (λ period.
            (spins : Spins self.now) × (spins.period ≡ period)) }
        ensures least { IfSome result (λ period.
            comes_back (period - 1) self.now self.now ≡ false) }
        ensures none { IfNone result (comes_back most self.now self.now ≡ false) }
    {
        let mut copy = self.uncounted();
        for made in 0..most {
            if !copy.try_own() {
                return None;
            }
            if copy.is_again(self) {
                return Some(made + 1);
            }
        }
        None
    }

    /// A copy that has made no steps.
    pub fn uncounted(&self) -> Self
        ensures { result ≡ uncounted self.now }
    {
        let mut copy = self.copied();
        copy.steps = 0;
        copy
    }

    /// How many own steps, at most `most`, lead to a state that comes again after a period.
    fn first_again(&self, period: u64, most: u64) -> u64
        requires own { OwnFor (most + period) self.now }
        requires few { most + period < 2 ^ 64 - 1 }
        ensures { FirstAgain self.now period most result }
    {
        let mut state = self.uncounted();
        let mut ahead = self.uncounted();
        let _made = ahead.run_own(true, period);
        for made in 0..most {
            if state.is_again(&ahead) {
                return made;
            }
            let _own = state.try_own();
            let _also = ahead.try_own();
        }
        most
    }
}
