//! Numbers in the forms that the plain language lacks.
ghost use Rattle.std.specs.Prelude.{◌≡◌, ◌≤◌, ◌<◌, ◌^◌, ◌-◌, ◌%◌, IfSome, Ok, Some};
ghost use Rattle.ga_expand.specs.Literal as model;

use crate::error::ExpandErrorKind;
use crate::sides::sides;
use ga_word::Word18;

/// The word that a token writes as a number below zero, in binary digits, as a character or as
/// several sides; or `None` if it is in no such form.
#[tactic(auto, unfolding(crate::specs::Literal::literal_of))]
pub(crate) fn literal(text: &[u8]) -> Result<Option<Word18>, ExpandErrorKind>
    ensures { result ≡ model.literal_of text.now }
{
    if let Some(number) = negative(text) {
        return negated(number);
    }
    match digits_or_character(text) {
        Some(number) => Ok(Some(number)),
        None => Ok(sides(text)),
    }
}

/// The number in binary digits or of a character.
pub(crate) fn digits_or_character(text: &[u8]) -> Option<Word18>
    ensures { result ≡ model.digits_or_character text.now }
{
    match binary(text) {
        Some(number) => Some(number),
        None => character(text),
    }
}

/// The number behind `-`.
fn negative(text: &[u8]) -> Option<u32>
    ensures { result ≡ model.as_negative text.now }
{
    let (first, digits) = text.split_first()?;
    if *first != b'-' {
        return None;
    }
    numeral(10, 8, digits)
}

/// The word below zero by a number.
fn negated(number: u32) -> Result<Option<Word18>, ExpandErrorKind>
    ensures { result ≡ model.negated number }
{
    if number > 1 << 17 {
        return Err(ExpandErrorKind::NumberRange);
    }
    Ok(Word18::new(((1 << 18) - number) % (1 << 18)))
}

/// The number behind `%`.
fn binary(text: &[u8]) -> Option<Word18>
    ensures { result ≡ model.as_binary text.now }
{
    let (first, digits) = text.split_first()?;
    if *first != b'%' {
        return None;
    }
    Word18::new(numeral(2, 18, digits)?)
}

/// The code of the character between two `'`.
fn character(text: &[u8]) -> Option<Word18>
    ensures { result ≡ model.as_character text.now }
{
    match text {
        [b'\'', code, b'\''] if is_seen(*code) => Word18::new(u32::from(*code)),
        _ => None,
    }
}

/// A character of ASCII that can be seen.
fn is_seen(code: u8) -> bool
    ensures { result ≡ model.is_seen code }
{
    code > 32 && code < 127
}

/// The number that digits write, of which there are at least one and at most `most`.
pub(crate) fn numeral(radix: u32, most: usize, digits: &[u8]) -> Option<u32>
    requires radix { (2 ≤ radix) × (radix ≤ 16) }
    requires room { radix ^ most ≤ 2 ^ 32 }
    ensures value { result ≡ model.numeral radix most digits.now }
    ensures bound { IfSome result (λ number. number < radix ^ most) }
{
    if digits.is_empty() || digits.len() > most {
        return None;
    }
    let mut number = 0;
    for byte in digits {
        let digit = char::from(*byte).to_digit(radix)?;
        number = number * radix + digit;
    }
    Some(number)
}
