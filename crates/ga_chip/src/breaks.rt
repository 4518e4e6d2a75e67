ghost use Rattle.std.specs.Prelude.{◌≡◌, ◌<◌, ◌^◌, false, true, get_or, replicate, set};

use std::marker::Model;

/// The breakpoints of a node. A contract sees for each of the 512 addresses whether it is one.
#[derive(Drop)]
pub(crate) struct Breaks {
    // A bit for each address, those of the first 64 in the first word.
    words: [u64; 8],
}

impl Model for Breaks {
    ghost use Rattle.std.specs.Prelude.{Bool, List};
    ghost use Rattle.ga_chip.specs.inner.Bits.{bits_of};

    ghost Value = { List Bool };

    ghost view = { λ breaks. bits_of 512 breaks.words };
}

impl Breaks {
    pub(crate) fn new() -> Self
        ensures { result ≡ replicate 512 false }
    {
        Breaks { words: [0; 8] }
    }

    pub(crate) fn copied(&self) -> Self
        ensures { result ≡ self.now }
    {
        Breaks { words: self.words }
    }

    pub(crate) fn has(&self, address: u16) -> bool
        requires { address < 2 ^ 9 }
        ensures { result ≡ get_or self.now address false }
    {
        self.words[usize::from(address / 64)] >> (address % 64) & 1 == 1
    }

    pub(crate) fn set(&mut self, address: u16)
        requires { address < 2 ^ 9 }
        ensures { self.new ≡ set self.old address true }
    {
        self.words[usize::from(address / 64)] |= 1 << (address % 64);
    }

    pub(crate) fn clear(&mut self, address: u16)
        requires { address < 2 ^ 9 }
        ensures { self.new ≡ set self.old address false }
    {
        self.words[usize::from(address / 64)] &= !(1 << (address % 64));
    }

    pub(crate) fn is_empty(&self) -> bool
        ensures { result ≡ true → self.now ≡ replicate 512 false }
    {
        self.words == [0; 8]
    }
}
