ghost use Rattle.std.specs.Prelude.{◌≡◌, ℕ, ◌<◌, ◌≤◌, ◌==◌, if◌then◌else◌, true, false};
ghost use Rattle.ga_chip.specs.inner.Awake.{is_in};

/// A set of nodes, by their indices in order of name.
#[derive(Clone, Copy)]
pub(crate) struct NodeSet {
    // A bit for each index, those of the first 64 in the first word.
    words: [u64; 3],
}

impl NodeSet {
    pub(crate) fn all() -> Self
        ensures { (index : ℕ) → index < 144 → is_in index result ≡ true }
    {
        NodeSet {
            words: [u64::MAX, u64::MAX, 0xFFFF],
        }
    }

    /// Whether most nodes may be in the set: all of the first 128 are.
    #[inline(always)]
    pub(crate) fn is_crowded(&self) -> bool {
        self.words[0] & self.words[1] == u64::MAX
    }

    /// Whether the node at an index is in the set.
    #[inline(always)]
    pub(crate) fn contains(&self, index: usize) -> bool
        requires { index < 144 }
        ensures { result ≡ is_in index self.now }
    {
        self.words[index / 64] >> (index % 64) & 1 == 1
    }

    /// Puts the node at an index into the set.
    #[inline(always)]
    pub(crate) fn insert(&mut self, index: usize)
        requires { index < 144 }
        ensures { (other : ℕ)
            → is_in other self.new ≡ (if other == index then true else is_in other self.old) }
    {
        self.words[index / 64] |= 1 << (index % 64);
    }

    /// Takes the node at an index out of the set.
    #[inline(always)]
    pub(crate) fn remove(&mut self, index: usize)
        requires { index < 144 }
        ensures { (other : ℕ)
            → is_in other self.new ≡ (if other == index then false else is_in other self.old) }
    {
        self.words[index / 64] &= !(1 << (index % 64));
    }

    /// The first index in the set from an index on, or more than 143 if there is none.
    #[inline(always)]
    pub(crate) fn next(&self, from: usize) -> usize
        requires { from ≤ 144 }
        ensures on { from ≤ result }
        ensures found { result < 144 → is_in result self.now ≡ true }
        ensures first { (other : ℕ) → from ≤ other → other < result → is_in other self.now ≡ false }
    {
        let here = self.words[from / 64] >> (from % 64);
        if here != 0 {
            return from + here.trailing_zeros() as usize;
        }
        for at in from / 64 + 1..3 {
            let word = self.words[at];
            if word != 0 {
                return at * 64 + word.trailing_zeros() as usize;
            }
        }
        64 * self.words.len()
    }
}
