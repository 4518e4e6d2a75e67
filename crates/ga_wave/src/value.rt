//! The value of a signal, and its text.
ghost use Rattle.std.specs.Prelude.{◌≡◌, ◌++◌, OnOk, string_bytes};
ghost use Rattle.ga_waits.specs.Label.{images_in};
ghost use Rattle.ga_wave.specs.Value as spec;
ghost use Rattle.ga_wave.specs.Value.{at_text, label_or, same_value, value_text};

use crate::deed::{Did, did_name};
use crate::sample::Sample;
use crate::signal::Signal;
use crate::work::{Work, work_name};
use ga_asm::Images;
use ga_place::{Node, Side, Where};
use ga_waits::push_label;
use ga_word::{Hex3, Word18};
use std::alloc::AllocError;
use std::fmt::Write;

/// The value of a signal.
#[derive(Clone, Copy)]
pub(crate) enum Value {
    Did(Did),
    /// An address, and what it reaches.
    At(Hex3, Where),
    Runs(Work),
    Low,
    High,
    /// Bits, as a number.
    Bits(u32),
    /// No word is there.
    Nothing,
}

impl Value {
    /// Whether two values are the same.
    pub(crate) fn is(&self, other: &Value) -> bool
        ensures { result ≡ same_value self.now other.now }
    {
        match (self, other) {
            (Value::Did(one), Value::Did(other)) => did_name(*one) == did_name(*other),
            (Value::At(one, _), Value::At(other, _)) => one == other,
            (Value::Runs(one), Value::Runs(other)) => work_name(*one) == work_name(*other),
            (Value::Bits(one), Value::Bits(other)) => one == other,
            (Value::Low, Value::Low) => true,
            (Value::High, Value::High) => true,
            (Value::Nothing, Value::Nothing) => true,
            _ => false,
        }
    }
}

/// The value of a signal in a turn.
pub(crate) fn value_of(signal: Signal, sample: &Sample) -> Value
    ensures { result ≡ spec.value_of signal sample.now }
{
    match signal {
        Signal::Did => Value::Did(sample.did),
        Signal::At => Value::At(sample.stand.address, sample.stand.reaches),
        Signal::Op => Value::Runs(sample.stand.work),
        Signal::Busy => busy_value(sample.busy),
        Signal::P => Value::Bits(u32::from(sample.registers.p)),
        Signal::T => Value::Bits(sample.registers.t.get()),
        Signal::S => Value::Bits(sample.registers.s.get()),
        Signal::R => Value::Bits(sample.registers.r.get()),
        Signal::A => Value::Bits(sample.registers.a.get()),
        Signal::B => Value::Bits(u32::from(sample.registers.b)),
        Signal::Io => Value::Bits(sample.registers.io.get()),
        Signal::Port(Side::Right) => word_value(sample.ports.right),
        Signal::Port(Side::Down) => word_value(sample.ports.down),
        Signal::Port(Side::Left) => word_value(sample.ports.left),
        Signal::Port(Side::Up) => word_value(sample.ports.up),
    }
}

fn busy_value(busy: bool) -> Value
    ensures { result ≡ spec.busy_value busy }
{
    if busy { Value::High } else { Value::Low }
}

fn word_value(word: Option<Word18>) -> Value
    ensures { result ≡ spec.word_value word }
{
    match word {
        Some(word) => Value::Bits(word.get()),
        None => Value::Nothing,
    }
}

/// Adds the text of a value, up to the identifier of its signal.
pub(crate) fn push_value(
    text: &mut String,
    images: Option<&Images>,
    node: Node,
    value: &Value,
) -> Result<(), AllocError>
    ensures { OnOk result (string_bytes text.new ≡ string_bytes text.old
        ++ value_text (images_in images.entry) node value.now) }
{
    match value {
        Value::Did(did) => push_name(text, did_name(*did)),
        Value::At(address, reaches) => push_at(text, images, node, *address, *reaches),
        Value::Runs(work) => push_name(text, work_name(*work)),
        Value::Low => text.push_str("0"),
        Value::High => text.push_str("1"),
        Value::Bits(number) => push_bits(text, *number),
        Value::Nothing => text.push_str("bz "),
    }
}

/// Adds a name as a value.
fn push_name(text: &mut String, name: &str) -> Result<(), AllocError>
    ensures { OnOk result (string_bytes text.new ≡ string_bytes text.old
        ++ spec.name_value name.now) }
{
    write!(text, "s{name} ")?;
    Ok(())
}

/// Adds bits as a value.
fn push_bits(text: &mut String, number: u32) -> Result<(), AllocError>
    ensures { OnOk result (string_bytes text.new ≡ string_bytes text.old
        ++ spec.bits_value number) }
{
    write!(text, "b{number:b} ")?;
    Ok(())
}

/// Adds an address as a value: its label, if it has one.
fn push_at(
    text: &mut String,
    images: Option<&Images>,
    node: Node,
    address: Hex3,
    reaches: Where,
) -> Result<(), AllocError>
    ensures { OnOk result (string_bytes text.new ≡ string_bytes text.old
        ++ at_text (images_in images.entry) node address reaches) }
{
    let mut label = String::new(*text.allocator());
    push_label(&mut label, images, node, reaches)?;
    push_label_or(text, label.as_str(), address)
}

/// Adds a label, which is behind a blank, or an address in hex digits if there is none.
fn push_label_or(text: &mut String, label: &str, address: Hex3) -> Result<(), AllocError>
    ensures { OnOk result (string_bytes text.new ≡ string_bytes text.old
        ++ label_or label.now address) }
{
    match label.strip_prefix(" ") {
        Some(label) => write!(text, "s{label} ")?,
        None => write!(text, "s{address} ")?,
    }
    Ok(())
}
