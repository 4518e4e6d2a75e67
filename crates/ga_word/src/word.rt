ghost use Rattle.std.specs.Prelude.{◌≡◌, ℕ, ◌+◌, ◌-◌, ◌*◌, ◌^◌, ◌<◌, bit_and, bit_xor, Some};
ghost use Rattle.std.specs.Option.{SomeIff};
ghost use Rattle.ga_word.specs.Hex.{hex_digits};
ghost use Rattle.ga_word.specs.Word.{carry_sum, multiply_step, multiply_step_carry, word_half, word_not, word_sum, word_twice};

use std::fmt;
use std::marker::Model;

/// A word of 18 bits. A contract sees it as its number, from 0 to 3FFFF.
#[derive(Clone, Copy, Debug, PartialEq, Eq)]
pub struct Word18 {
    number: u32,
}

impl Model for Word18 {
    ghost Value = { ℕ };

    ghost view = { λ word. word.number };

    ghost invariant = { λ word. word.number < 2 ^ 18 };

    ghost inverse = { λ n. record { number = n } };
}

impl Word18 {
    /// The word with this number, or `None` from 40000 up.
    pub fn new(number: u32) -> Option<Self>
        ensures { SomeIff result (number < 2 ^ 18) number }
    {
        if number < 1 << 18 {
            Some(Word18 { number })
        } else {
            None
        }
    }

    /// The number of the word, below 40000.
    pub fn get(self) -> u32
        ensures value { result ≡ self }
        ensures bound { result < 2 ^ 18 }
    {
        self.number
    }

    /// The sum modulo 2^18, as the opcode `+` makes it of T and S.
    pub fn add(self, other: Self) -> Self
        ensures { result ≡ word_sum self other }
    {
        Word18 {
            number: (self.number + other.number) & 0x3_FFFF,
        }
    }

    /// The sum of two words and a carry modulo 2^18, and the carry out of bit 17, as `+` makes them
    /// of T and S in extended mode. (The carry is this project's profile.)
    pub fn add_carry(self, other: Self, carry: bool) -> (Self, bool)
        ensures { result ≡ carry_sum self other carry }
    {
        let sum = self.number + other.number + u32::from(carry);
        (
            Word18 {
                number: sum & 0x3_FFFF,
            },
            sum >= 0x4_0000,
        )
    }

    /// Each bit is 1 where both words have a 1, as by the opcode `and`.
    pub fn and(self, other: Self) -> Self
        ensures { result ≡ bit_and self other }
    {
        Word18 {
            number: self.number & other.number,
        }
    }

    /// Each bit is 1 where the two words differ, as by the opcode `or`.
    pub fn xor(self, other: Self) -> Self
        ensures { result ≡ bit_xor self other }
    {
        Word18 {
            number: self.number ^ other.number,
        }
    }

    /// Each bit turned over, as by the opcode `-`.
    pub fn not(self) -> Self
        ensures { result ≡ word_not self }
    {
        Word18 {
            number: 0x3_FFFF - self.number,
        }
    }

    /// The word shifted left by one, as by the opcode `2*`. Bit 17 is lost.
    pub fn twice(self) -> Self
        ensures { result ≡ word_twice self }
    {
        Word18 {
            number: (self.number << 1) & 0x3_FFFF,
        }
    }

    /// The word shifted right by one, as by the opcode `2/`. Bit 17 is kept.
    pub fn half(self) -> Self
        ensures { result ≡ word_half self }
    {
        Word18 {
            number: self.number >> 1 | (self.number >> 17) << 17,
        }
    }

    /// One step of a multiplication, the opcode `+*`: T and A after it, from T, S and A.
    ///
    /// If bit 0 of A is 1, S is first added to T modulo 2^18. Then the 36 bits of T and A shift
    /// right by one, and bit 17 of T is kept. (The whole step is this project's profile.)
    pub fn mul_step(t: Self, s: Self, a: Self) -> (Self, Self)
        ensures { result ≡ multiply_step t s a }
    {
        let sum = if a.number & 1 == 1 { t.add(s) } else { t };
        let low = Word18 {
            number: a.number >> 1 | (sum.number & 1) << 17,
        };
        (sum.half(), low)
    }

    /// One step of a multiplication in extended mode: T, A and the carry after it, from T, S, A and
    /// the carry.
    ///
    /// If bit 0 of A is 1, S and the carry are first added to T, and the new carry is that out of
    /// bit 17; otherwise the carry stays. Then T and A shift as in `mul_step`. (The carry is this
    /// project's profile.)
    pub fn mul_step_carry(t: Self, s: Self, a: Self, carry: bool) -> (Self, Self, bool)
        ensures { result ≡ multiply_step_carry t s a carry }
    {
        let (sum, carry) = if a.number & 1 == 1 {
            t.add_carry(s, carry)
        } else {
            (t, carry)
        };
        let low = Word18 {
            number: a.number >> 1 | (sum.number & 1) << 17,
        };
        (sum.half(), low, carry)
    }
}

impl Default for Word18 {
    ghost is_default = { λ word. word ≡ 0 };

    fn default() -> Self {
        Word18 { number: 0 }
    }
}

/// Writes the five hex digits of the word, in upper case.
impl fmt::Display for Word18 {
    ghost output = { λ word. Some (hex_digits 5 word) };

    fn fmt<W: fmt::Write>(&self, f: &mut fmt::Formatter<W>) -> fmt::Result {
        write!(f, "{:05X}", self.number)
    }
}
