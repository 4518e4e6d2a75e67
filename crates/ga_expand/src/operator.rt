//! The operators of expressions, and what they make of whole numbers.
ghost use Rattle.std.specs.Prelude.{◌≡◌, ◌≤◌, ◌+ℤ◌, ◌-ℤ◌, ◌*ℤ◌, IfSome};
ghost use Rattle.ga_expand.specs.Arithmetic as arithmetic;
ghost use Rattle.ga_expand.specs.Expression as model;

/// An operator between two numbers.
#[derive(Clone, Copy, PartialEq, Eq)]
pub(crate) enum Operator {
    Or,
    And,
    ShiftLeft,
    ShiftRight,
    Plus,
    Minus,
    Times,
    Divide,
    Remainder,
}

impl Operator {
    /// The operator with which a text begins.
    pub(crate) fn at(text: &[u8]) -> Option<Operator>
        ensures { result ≡ model.operator_at text.now }
    {
        match text {
            [b'|', ..] => Some(Operator::Or),
            [b'&', ..] => Some(Operator::And),
            [b'+', ..] => Some(Operator::Plus),
            [b'-', ..] => Some(Operator::Minus),
            [b'*', ..] => Some(Operator::Times),
            [b'/', ..] => Some(Operator::Divide),
            [b'%', ..] => Some(Operator::Remainder),
            [b'<', b'<', ..] => Some(Operator::ShiftLeft),
            [b'>', b'>', ..] => Some(Operator::ShiftRight),
            _ => None,
        }
    }

    /// How many bytes it has.
    pub(crate) fn width(self) -> usize
        ensures value { result ≡ model.width self }
        ensures bound { result ≤ 2 }
    {
        match self {
            Operator::ShiftLeft | Operator::ShiftRight => 2,
            _ => 1,
        }
    }

    /// How strongly it binds.
    pub(crate) fn strength(self) -> u8
        ensures { result ≡ model.strength self }
    {
        match self {
            Operator::Or => 0,
            Operator::And => 1,
            Operator::ShiftLeft | Operator::ShiftRight => 2,
            Operator::Plus | Operator::Minus => 3,
            Operator::Times | Operator::Divide | Operator::Remainder => 4,
        }
    }

    /// What it makes of two whole numbers, if there is a result that fits 32 bits.
    #[tactic(auto, unfolding(crate::specs::Arithmetic::made_by))]
    pub(crate) fn apply(self, left: i32, right: i32) -> Option<i32>
        ensures { result ≡ arithmetic.made_by self left right }
    {
        match self {
            Operator::Or => Some(left | right),
            Operator::And => Some(left & right),
            Operator::ShiftLeft => shifted_left(left, right),
            Operator::ShiftRight => shifted_right(left, right),
            Operator::Plus => sum(left, right),
            Operator::Minus => difference(left, right),
            Operator::Times => product(left, right),
            Operator::Divide => quotient(left, right),
            Operator::Remainder => remainder(left, right),
        }
    }
}

fn sum(left: i32, right: i32) -> Option<i32>
    ensures { result ≡ arithmetic.if_fits (left +ℤ right) }
{
    left.checked_add(right)
}

fn difference(left: i32, right: i32) -> Option<i32>
    ensures { result ≡ arithmetic.if_fits (left -ℤ right) }
{
    left.checked_sub(right)
}

fn product(left: i32, right: i32) -> Option<i32>
    ensures { result ≡ arithmetic.if_fits (left *ℤ right) }
{
    left.checked_mul(right)
}

/// A number with the other sign.
pub(crate) fn opposite(number: i32) -> Option<i32>
    ensures { result ≡ arithmetic.opposite number }
{
    number.checked_neg()
}

/// A number divided by another one, rounded towards zero.
fn quotient(left: i32, right: i32) -> Option<i32>
    ensures { result ≡ arithmetic.quotient left right }
{
    left.checked_div(right)
}

/// What is left of a number by such a quotient.
fn remainder(left: i32, right: i32) -> Option<i32>
    ensures { result ≡ arithmetic.remainder left right }
{
    if right == 0 {
        None
    } else {
        Some(left.wrapping_rem(right))
    }
}

/// By how many bits a shift may be.
fn shift_by(number: i32) -> Option<u32>
    ensures value { result ≡ arithmetic.shift_by number }
    ensures bound { IfSome result (λ bits. bits ≤ 17) }
{
    if number < 0 || number > 17 {
        None
    } else {
        Some(number.unsigned_abs())
    }
}

fn shifted_left(number: i32, bits: i32) -> Option<i32>
    ensures { result ≡ arithmetic.shifted_left number (arithmetic.shift_by bits) }
{
    let bits = shift_by(bits)?;
    number.checked_mul(1 << bits)
}

/// A number divided by a power of two, rounded down.
fn shifted_right(number: i32, bits: i32) -> Option<i32>
    ensures { result ≡ arithmetic.shifted_right number (arithmetic.shift_by bits) }
{
    let bits = shift_by(bits)?;
    Some(number >> bits)
}
