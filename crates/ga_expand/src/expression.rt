//! The parts of expressions: operators between numbers, `-` in front of them, and parentheses.
ghost use Rattle.std.specs.Prelude.{◌≡◌, ◌+◌, ◌^◌, ◌<◌, length, option_map};
ghost use Rattle.ga_expand.specs.Expression as model;

use crate::operator::Operator;

/// What is known in front of a byte of an expression.
#[derive(Clone, Copy)]
pub(crate) struct Before {
    /// How many parentheses are open.
    parentheses: usize,
    /// An operand is there, so an operator may follow. Elsewhere an operand begins, where `-` is a
    /// sign, and `%` is in front of binary digits.
    operand: bool,
    /// How many more bytes belong to a character between quotes.
    quoted: u8,
}

impl Before {
    /// The operator between two operands that begins here.
    fn operator_here(self, text: &[u8]) -> Option<Operator>
        ensures { result ≡ model.operator_here self text.now }
    {
        if self.operand && self.parentheses == 0 && self.quoted == 0 {
            Operator::at(text)
        } else {
            None
        }
    }

    /// What is known behind the first byte of a text.
    fn behind(self, text: &[u8]) -> Before
        requires { self.parentheses + 1 < 2 ^ 64 }
        ensures { result ≡ model.behind self text.now }
    {
        let Some(first) = text.first() else {
            return self;
        };
        if self.quoted > 0 {
            return Before {
                quoted: self.quoted - 1,
                ..self
            };
        }
        match *first {
            b'(' => Before {
                parentheses: self.parentheses + 1,
                operand: false,
                ..self
            },
            b')' => Before {
                parentheses: self.parentheses.saturating_sub(1),
                operand: true,
                ..self
            },
            b'\'' => Before {
                operand: true,
                quoted: 2,
                ..self
            },
            b'-' => Before {
                operand: false,
                ..self
            },
            _ => Before {
                operand: self.operator_here(text).is_none(),
                ..self
            },
        }
    }
}

/// An operator that parts an expression, and how many bytes of the expression begin with it.
#[derive(Clone, Copy)]
pub(crate) struct Parting {
    pub(crate) operator: Operator,
    left: usize,
}

/// The operator by which an expression is parted, if it has one outside parentheses and quotes. One
/// of more than 64 bytes isn't parted.
#[tactic(auto, unfolding(crate::specs::Expression::parted))]
pub(crate) fn parted(text: &[u8]) -> Option<Parting>
    ensures { result ≡ model.parted text.now }
{
    if is_long(text) {
        return None;
    }
    let outset = Before {
        parentheses: 0,
        operand: false,
        quoted: 0,
    };
    parted_from(outset, None, text)
}

/// The same of a text that begins here, by what is in front of it.
fn parted_from(before: Before, best: Option<Parting>, text: &[u8]) -> Option<Parting>
    requires { before.parentheses + length text.now < 2 ^ 64 }
    ensures { result ≡ model.parted_from before best text.now }
{
    let Some((_, rest)) = text.split_first() else {
        return best;
    };
    let best = chosen(best, before.operator_here(text), text.len());
    parted_from(before.behind(text), best, rest)
}

/// The one of two operators that binds less, or the second one.
fn chosen(best: Option<Parting>, found: Option<Operator>, left: usize) -> Option<Parting>
    ensures { result ≡ model.chosen best found left }
{
    let Some(operator) = found else {
        return best;
    };
    match best {
        Some(best) if best.operator.strength() < operator.strength() => Some(best),
        _ => Some(Parting { operator, left }),
    }
}

impl Parting {
    /// What is in front of the operator in an expression.
    #[tactic(auto, unfolding(crate::specs::Expression::left_of))]
    pub(crate) fn left_of<'a>(self, text: &'a [u8]) -> &'a [u8]
        ensures { result.now ≡ model.left_of text.now self }
    {
        &text[..text.len().saturating_sub(self.left)]
    }

    /// What is behind it.
    #[tactic(auto, unfolding(crate::specs::Expression::right_of))]
    pub(crate) fn right_of<'a>(self, text: &'a [u8]) -> &'a [u8]
        ensures { result.now ≡ model.right_of text.now self }
    {
        let front = text
            .len()
            .saturating_sub(self.left)
            .saturating_add(self.operator.width());
        &text[front.min(text.len())..]
    }
}

/// What is between a parenthesis with which an expression begins and one with which it ends.
#[tactic(auto, unfolding(crate::specs::Expression::inside))]
pub(crate) fn inside(text: &[u8]) -> Option<&[u8]>
    ensures { option_map (λ within. within.now) result ≡ model.inside text.now }
{
    let (first, rest) = text.split_first()?;
    let (last, within) = rest.split_last()?;
    if *first == b'(' && *last == b')' && !is_long(text) {
        Some(within)
    } else {
        None
    }
}

/// The operand behind the `-` with which an expression begins. It begins with no other `-`.
#[tactic(auto, unfolding(crate::specs::Expression::behind_sign))]
pub(crate) fn behind_sign(text: &[u8]) -> Option<&[u8]>
    ensures { option_map (λ operand. operand.now) result ≡ model.behind_sign text.now }
{
    let (first, operand) = text.split_first()?;
    if *first == b'-' && operand.first() != Some(&b'-') && !is_long(text) {
        Some(operand)
    } else {
        None
    }
}

/// Whether a text is too long for an expression.
fn is_long(text: &[u8]) -> bool
    ensures { result ≡ model.is_long text.now }
{
    text.len() > 64
}
