//! The values of constants and of the parts of expressions.
ghost use Rattle.std.specs.Prelude.{◌≡◌, pos};
ghost use Rattle.ga_expand.specs.Constants.{constant_word, number_of};
ghost use Rattle.ga_expand.specs.Expression as model;
ghost use Rattle.ga_expand.specs.Sides.{ports_of_both};

use crate::error::ExpandErrorKind;
use crate::operator::{Operator, opposite};
use crate::sides::ports_of_both;
use ga_word::Word18;

/// The value of a constant, or of a part of an expression.
#[derive(Clone, Copy)]
pub(crate) enum Operand {
    /// A whole number.
    Number(i32),
    /// The address of ports that is written as one: by names of sides, or of constants that are
    /// one, and not as a number in digits or as the result of an operator but `|`.
    Ports(Word18),
}

impl Operand {
    /// A number of the plain language, or the address of ports.
    pub(crate) fn new(word: Word18, is_ports: bool) -> Operand
        ensures { result ≡ model.plain_value is_ports word }
    {
        if is_ports {
            Operand::Ports(word)
        } else {
            Operand::Number(word.get() as i32)
        }
    }

    /// The whole number that it is.
    fn number(&self) -> i32
        ensures { result ≡ number_of self.now }
    {
        match *self {
            Operand::Number(number) => number,
            Operand::Ports(address) => address.get() as i32,
        }
    }

    /// The address of ports that it is, if it is written as one.
    fn ports(&self) -> Option<Word18>
        ensures { result ≡ model.ports_of self.now }
    {
        match *self {
            Operand::Number(_) => None,
            Operand::Ports(address) => Some(address),
        }
    }

    /// Its number modulo 2^18.
    pub(crate) fn word(&self) -> Word18
        ensures { result ≡ constant_word self.now }
    {
        Word18::new(self.number().rem_euclid(1 << 18).unsigned_abs()).unwrap()
    }

    /// The value of a constant, whose number fits 18 bits.
    pub(crate) fn as_constant(self) -> Result<Operand, ExpandErrorKind>
        ensures { result ≡ model.as_constant self }
    {
        let number = self.number();
        if number < -(1 << 17) || number >= 1 << 18 {
            return Err(ExpandErrorKind::NumberRange);
        }
        Ok(self)
    }

    /// The operand with `-` in front of it.
    pub(crate) fn negated(self) -> Result<Operand, ExpandErrorKind>
        ensures { result ≡ model.negated self }
    {
        calculated(opposite(self.number()))
    }
}

impl Operator {
    /// What it makes of two operands, or why there is no result, or no operand to begin with.
    pub(crate) fn applied(
        self,
        left: Result<Operand, ExpandErrorKind>,
        right: Result<Operand, ExpandErrorKind>,
    ) -> Result<Operand, ExpandErrorKind>
        ensures { result ≡ model.applied self left right }
    {
        self.combined(left?, right?)
    }

    /// What it makes of two operands.
    fn combined(self, left: Operand, right: Operand) -> Result<Operand, ExpandErrorKind>
        ensures { result ≡ model.combined self left right }
    {
        match self {
            Operator::Or => joined(left, right),
            _ => calculated(self.apply(left.number(), right.number())),
        }
    }
}

/// A result as an operand, if it fits.
fn calculated(number: Option<i32>) -> Result<Operand, ExpandErrorKind>
    ensures { result ≡ model.calculated number }
{
    match number {
        Some(number) => Ok(Operand::Number(number)),
        None => Err(ExpandErrorKind::NumberRange),
    }
}

/// What `|` makes of two operands: of two addresses of ports that of all their ports, and of two
/// other numbers the bits that one of them has.
fn joined(left: Operand, right: Operand) -> Result<Operand, ExpandErrorKind>
    ensures { result ≡ model.joined left right }
{
    match (left.ports(), right.ports()) {
        (Some(left), Some(right)) => joined_ports(left, right),
        (None, None) => calculated(Operator::Or.apply(left.number(), right.number())),
        _ => Err(ExpandErrorKind::MixedSides),
    }
}

/// The address of the ports of two addresses.
fn joined_ports(left: Word18, right: Word18) -> Result<Operand, ExpandErrorKind>
    ensures { result ≡ model.as_ports (ports_of_both left right) }
{
    match Word18::new(ports_of_both(left.get(), right.get())) {
        Some(address) => Ok(Operand::Ports(address)),
        None => Err(ExpandErrorKind::NumberRange),
    }
}
