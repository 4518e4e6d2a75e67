//! Which tokens are expressions.
ghost use Rattle.std.specs.Prelude.{◌≡◌, map};
ghost use Rattle.std.specs.List.{list_any};
ghost use Rattle.std.specs.Str.{bytes_eq};
ghost use Rattle.ga_expand.specs.Constants.{is_among};
ghost use Rattle.ga_expand.specs.Operand.{has_parts, is_expression, is_literal, is_operand, is_operand_within, is_plain};

use crate::constants::number;
use crate::expression::{behind_sign, inside, parted};
use crate::literal::literal;

/// Whether a token is an expression of numbers and of some names: it has an operator between two
/// operands, parentheses, or a sign in front of an operand. (The rules are this project's own:
/// profile.)
pub fn is_expression(names: &[&str], token: &str) -> bool
    ensures { result ≡ is_expression (map (λ name. name.now) names.now) token.now }
{
    let text = token.as_bytes();
    has_parts(text) && is_operand(names, text)
}

/// Whether a text has an operator between two operands, is in parentheses, or has a sign in front
/// of it. `-5` is a number.
fn has_parts(text: &[u8]) -> bool
    ensures { result ≡ has_parts text.now }
{
    parted(text).is_some()
        || inside(text).is_some()
        || (behind_sign(text).is_some() && !is_literal(text))
}

/// Whether a text is a number, a name, or an expression.
#[tactic(auto, unfolding(crate::specs::Operand::is_operand))]
fn is_operand(names: &[&str], text: &[u8]) -> bool
    ensures { result ≡ is_operand (map (λ name. name.now) names.now) text.now }
{
    is_operand_within(64, names, text)
}

/// The same in at most this many levels.
fn is_operand_within(levels: u32, names: &[&str], text: &[u8]) -> bool
    ensures { result ≡ is_operand_within levels (map (λ name. name.now) names.now) text.now }
{
    if levels == 0 {
        return false;
    }
    if let Some(parting) = parted(text) {
        return is_operand_within(levels - 1, names, parting.left_of(text))
            && is_operand_within(levels - 1, names, parting.right_of(text));
    }
    match inside(text).or(behind_sign(text)) {
        Some(operand) => is_operand_within(levels - 1, names, operand),
        None => is_plain(names, text),
    }
}

/// Whether a text is a number, or a name.
fn is_plain(names: &[&str], text: &[u8]) -> bool
    ensures { result ≡ is_plain (map (λ name. name.now) names.now) text.now }
{
    is_literal(text) || number(text).is_some() || is_named(names, text)
}

/// Whether a text has a form of a number that the plain language lacks.
fn is_literal(text: &[u8]) -> bool
    ensures { result ≡ is_literal text.now }
{
    !matches!(literal(text), Ok(None))
}

/// Whether a text is one of some names.
fn is_named(names: &[&str], text: &[u8]) -> bool
    ensures { result ≡ is_among (map (λ name. name.now) names.now) text.now }
{
    is_any(names, text)
}

fn is_any(names: &[&str], text: &[u8]) -> bool
    ensures { result ≡ list_any (λ name. bytes_eq text.now name.now) names.now }
{
    names.iter().any(|name| text == name.as_bytes())
}
