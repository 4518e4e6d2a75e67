ghost use Rattle.std.specs.Prelude.{◌≡◌, ℕ, ◌<◌, ◌==◌, get_or, if◌then◌else◌, max, replicate};

use std::marker::Model;

/// A clock: a count for each node, by index in order of name. A contract sees their list.
#[derive(Clone, Copy)]
pub(crate) struct Clock {
    counts: [u64; 144],
}

impl Model for Clock {
    ghost use Rattle.std.specs.Prelude.{ℕ, List};

    ghost Value = { List ℕ };

    ghost view = { λ clock. clock.counts };

    ghost inverse = { λ counts. record { counts = counts } };
}

impl Clock {
    /// No steps.
    pub(crate) fn new() -> Self
        ensures { result ≡ replicate 144 0 }
    {
        Clock { counts: [0; 144] }
    }

    /// The count of the node at an index.
    pub(crate) fn at(&self, index: usize) -> u64
        requires { index < 144 }
        ensures { result ≡ get_or self.now index 0 }
    {
        self.counts[index]
    }

    /// Gives the node at an index this count.
    pub(crate) fn put(&mut self, index: usize, count: u64)
        requires { index < 144 }
        ensures { (at : ℕ) → at < 144 → get_or self.new at 0
            ≡ (if at == index then count else get_or self.old at 0) }
    {
        self.counts[index] = count;
    }

    /// Takes the larger count of each node.
    pub(crate) fn join(&mut self, other: &Clock)
        ensures { (index : ℕ) → index < 144 → get_or self.new index 0
            ≡ max (get_or self.old index 0) (get_or other.now index 0) }
    {
        for index in 0..144 {
            self.counts[index] = self.counts[index].max(other.counts[index]);
        }
    }
}
