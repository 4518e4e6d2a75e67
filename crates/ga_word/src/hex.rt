ghost use Rattle.std.specs.Prelude.{◌≡◌, ℕ, ◌<◌, ◌^◌, Some, true};
ghost use Rattle.std.specs.Fmt.{digit_glyph};
ghost use Rattle.ga_word.specs.Hex.{hex_digits, word_of};

use crate::word::Word18;
use std::fmt;
use std::marker::Model;

/// A number below 2^12, as an address is, which prints as three hex digits in upper case. A
/// contract sees it as this number.
#[derive(Clone, Copy, Debug, PartialEq, Eq)]
pub struct Hex3 {
    number: u16,
}

impl Model for Hex3 {
    ghost Value = { ℕ };

    ghost view = { λ hex. hex.number };

    ghost invariant = { λ hex. hex.number < 2 ^ 12 };

    ghost inverse = { λ n. record { number = n } };
}

impl Hex3 {
    /// A number below 2^12.
    pub fn new(number: u16) -> Self
        requires { number < 2 ^ 12 }
        ensures { result ≡ number }
    {
        Hex3 { number }
    }
}

impl fmt::Display for Hex3 {
    ghost output = { λ number. Some (hex_digits 3 number) };

    fn fmt<W: fmt::Write>(&self, f: &mut fmt::Formatter<W>) -> fmt::Result {
        write!(f, "{:03X}", self.number)
    }
}

/// The five hex digits of a word, in upper case.
pub fn hex5(word: Word18) -> [u8; 5]
    ensures text { result ≡ hex_digits 5 word }
    ensures read_again { word_of result ≡ Some word }
{
    let number = word.get();
    [
        hex_digit(number >> 16),
        hex_digit(number >> 12 & 15),
        hex_digit(number >> 8 & 15),
        hex_digit(number >> 4 & 15),
        hex_digit(number & 15),
    ]
}

/// The word that five hex digits of either case write, or `None` if the text is not five hex digits
/// or writes a number over 3FFFF.
pub fn read_hex5(text: &[u8]) -> Option<Word18>
    ensures { result ≡ word_of text.now }
{
    if text.len() != 5 {
        return None;
    }
    let mut number = 0;
    for byte in text {
        let digit = char::from(*byte).to_digit(16)?;
        number = number * 16 + digit;
    }
    Word18::new(number)
}

fn hex_digit(digit: u32) -> u8
    requires { digit < 16 }
    ensures { result ≡ digit_glyph true digit }
{
    let digit = digit as u8;
    if digit < 10 {
        b'0' + digit
    } else {
        b'A' - 10 + digit
    }
}
