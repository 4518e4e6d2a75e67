ghost use Rattle.std.specs.Prelude.{◌≡◌, ◌<◌, ℕ, IfSome, None, Some, if◌then◌else◌};
ghost use Rattle.std.specs.Char.{digit_value, is_digit};
ghost use Rattle.ga_debug.specs.Word.{address_of, count_of, decimal_of, outcome_of, side_of};

use crate::address::Address;
use ga_chip::Outcome;
use ga_place::Side;

/// The address that a word is, in three hex digits of either case, up to 1FF.
pub(crate) fn address_of(word: &[u8]) -> Option<Address>
    ensures { result ≡ address_of word.now }
{
    let [a, b, c] = word else {
        return None;
    };
    let a = hex_digit(*a)?;
    let b = hex_digit(*b)?;
    let c = hex_digit(*c)?;
    Address::new((a * 16 + b) * 16 + c)
}

/// The value of a hex digit of either case.
pub(crate) fn hex_digit(digit: u8) -> Option<u16>
    ensures value { result ≡ (if is_digit digit 16 then Some (digit_value digit) else None) }
    ensures below { IfSome result (λ value. value < 16) }
{
    let value = char::from(digit).to_digit(16)?;
    Some(value as u16)
}

/// The side whose first letter a word is.
pub(crate) fn side_of(word: &[u8]) -> Option<Side>
    ensures { result ≡ side_of word.now }
{
    let side = match word {
        b"r" => Side::Right,
        b"d" => Side::Down,
        b"l" => Side::Left,
        b"u" => Side::Up,
        _ => return None,
    };
    Some(side)
}

/// The number that a word is, in one to `most` decimal digits.
#[tactic(auto, unfolding(crate::specs::Word::decimal_of))]
pub(crate) fn decimal_of(word: &[u8], most: usize) -> Option<u32>
    requires { most < 10 }
    ensures { result ≡ decimal_of most word.now }
{
    if word.is_empty() || word.len() > most {
        return None;
    }
    let mut number = 0;
    for digit in word {
        if !digit.is_ascii_digit() {
            return None;
        }
        number = number * 10 + u32::from(*digit - b'0');
    }
    Some(number)
}

/// The count of turns that a word is, in one to seven decimal digits, up to 1000000.
pub fn count_of(word: &[u8]) -> Option<u32>
    ensures { result ≡ count_of word.now }
{
    let number = decimal_of(word, 7)?;
    if number <= 1_000_000 {
        Some(number)
    } else {
        None
    }
}

/// The outcome of a try that a word names.
pub(crate) fn outcome_of(word: &[u8]) -> Option<Outcome>
    ensures { result ≡ outcome_of word.now }
{
    let outcome = match word {
        b"moved" => Outcome::Moved,
        b"waits" => Outcome::Waits,
        b"held" => Outcome::Held,
        b"stopped" => Outcome::Stopped,
        _ => return None,
    };
    Some(outcome)
}
