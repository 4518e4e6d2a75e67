//! The words for what a node shows, and for its values.
ghost use Rattle.std.specs.Prelude.{◌≡◌, ◌≤◌, ◌<◌, ◌^◌, IfSome};
ghost use Rattle.ga_debug.specs.Values.{address_value, count_value, hex_below, plain_what, register_named, register_value_in, side_named, stop_named, value_in, word_value};
ghost use Rattle.ga_waits.specs.Label.{images_in};

use crate::label::{address_in, memory_in};
use crate::word::{decimal_of, hex_digit};
use ga_asm::Images;
use ga_node::Stop;
use ga_place::{Node, Side};
use ga_trace::{Register, Value, What};
use ga_word::{Hex3, Word18};

/// The side of this name.
pub(crate) fn side_named(word: &[u8]) -> Option<Side>
    ensures { result ≡ side_named word.now }
{
    let side = match word {
        b"right" => Side::Right,
        b"down" => Side::Down,
        b"left" => Side::Left,
        b"up" => Side::Up,
        _ => return None,
    };
    Some(side)
}

/// The register of this name.
fn register_named(word: &[u8]) -> Option<Register>
    ensures { result ≡ register_named word.now }
{
    let register = match word {
        b"P" => Register::P,
        b"A" => Register::A,
        b"B" => Register::B,
        b"R" => Register::R,
        b"S" => Register::S,
        b"T" => Register::T,
        b"C" => Register::Carry,
        b"io" => Register::Io,
        b"steps" => Register::Steps,
        _ => return None,
    };
    Some(register)
}

/// The stop of this name.
fn stop_named(word: &[u8]) -> Option<Stop>
    ensures { result ≡ stop_named word.now }
{
    let stop = match word {
        b"MultiWrite" => Stop::MultiWrite,
        b"IoRead" => Stop::IoRead,
        b"Unmapped" => Stop::Unmapped,
        b"Rom" => Stop::Rom,
        b"Counted" => Stop::Counted,
        _ => return None,
    };
    Some(stop)
}

/// What a node shows by this word, which is no side.
pub(crate) fn plain_what(images: Option<&Images>, node: Node, word: &str) -> Option<What>
    ensures { result ≡ plain_what (images_in images.entry) node word.now }
{
    if let Some(register) = register_named(word.as_bytes()) {
        return Some(What::Register(register));
    }
    match word {
        "at" => Some(What::At),
        "stopped" => Some(What::Stopped),
        _ => {
            let address = memory_in(images, node, word)?;
            Some(What::Memory(address.get()))
        }
    }
}

/// The value of what a node shows that a word writes.
pub(crate) fn value_in(images: Option<&Images>, node: Node, what: What, word: &str) -> Option<Value>
    ensures { result ≡ value_in (images_in images.entry) node what word.now }
{
    match what {
        What::Register(register) => register_value_in(register, word.as_bytes()),
        What::Memory(_) => word_value(word.as_bytes()),
        What::Pending(_) if word == "none" => Some(Value::Nothing),
        What::Pending(_) => word_value(word.as_bytes()),
        What::Written(_) | What::Read(_) => count_value(word.as_bytes()),
        What::At => {
            let address = address_in(images, node, word)?;
            Some(Value::Address(Hex3::new(address.get())))
        }
        What::Stopped if word == "none" => Some(Value::Nothing),
        What::Stopped => Some(Value::Stop(stop_named(word.as_bytes())?)),
    }
}

fn register_value_in(register: Register, word: &[u8]) -> Option<Value>
    ensures { result ≡ register_value_in register word.now }
{
    match register {
        Register::P => address_value(0x400, word),
        Register::B => address_value(0x200, word),
        Register::Carry | Register::Steps => count_value(word),
        _ => word_value(word),
    }
}

fn word_value(word: &[u8]) -> Option<Value>
    ensures { result ≡ word_value word.now }
{
    let number = hex_below(0x40000, word)?;
    Some(Value::Word(Word18::new(number)?))
}

fn address_value(bound: u32, word: &[u8]) -> Option<Value>
    requires { bound ≤ 2 ^ 10 }
    ensures { result ≡ address_value bound word.now }
{
    let number = hex_below(bound, word)?;
    Some(Value::Address(Hex3::new(number as u16)))
}

fn count_value(word: &[u8]) -> Option<Value>
    ensures { result ≡ count_value word.now }
{
    Some(Value::Count(u64::from(decimal_of(word, 9)?)))
}

/// The number below a bound that a word writes in one to five hex digits of either case.
#[tactic(auto, unfolding(crate::specs::Values::hex_below))]
fn hex_below(bound: u32, word: &[u8]) -> Option<u32>
    ensures value { result ≡ hex_below bound word.now }
    ensures below { IfSome result (λ number. number < bound) }
{
    if word.is_empty() || word.len() > 5 {
        return None;
    }
    let mut number = 0;
    for digit in word {
        let value = hex_digit(*digit)?;
        number = number * 16 + u32::from(value);
    }
    if number < bound { Some(number) } else { None }
}
