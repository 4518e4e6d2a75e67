use std::marker::Model;

/// An address of nine bits. A contract sees it as its number.
#[derive(Clone, Copy)]
pub struct Address {
    number: u16,
}

impl Model for Address {
    ghost use Rattle.std.specs.Prelude.{ℕ, ◌^◌, ◌<◌};

    ghost Value = { ℕ };

    ghost view = { λ address. address.number };

    ghost invariant = { λ address. address.number < 2 ^ 9 };

    ghost inverse = { λ n. record { number = n } };
}

impl Address {
    ghost use Rattle.std.specs.Prelude.{◌≡◌, ◌^◌, ◌<◌};
    ghost use Rattle.std.specs.Option.{SomeIff};

    /// The address 000.
    pub(crate) fn zero() -> Self
        ensures { result ≡ 0 }
    {
        Address { number: 0 }
    }

    /// The address with this number, or `None` from 200 (hexadecimal) up.
    pub fn new(number: u16) -> Option<Self>
        ensures { SomeIff result (number < 2 ^ 9) number }
    {
        if number < 1 << 9 {
            Some(Address { number })
        } else {
            None
        }
    }

    /// Its number, below 200.
    pub fn get(self) -> u16
        ensures value { result ≡ self }
        ensures bound { result < 2 ^ 9 }
    {
        self.number
    }
}
