//! What a node shows that has a value.
ghost use Rattle.std.specs.Prelude.{◌≡◌, Some};
ghost use Rattle.ga_trace.specs.What.{at_value, memory_value, register_value, same_stop, same_value, stop_or, value_of, value_text};
ghost use Rattle.ga_node.specs.Need.{need_of, stop_of};

use crate::at::at_word;
use ga_chip::Chip;
use ga_node::{NodeState, Stop};
use ga_place::{Node, Side, Where, cell, locate};
use ga_word::{Hex3, Word18};
use std::fmt;

/// A register of a node, or its number of steps.
#[derive(Clone, Copy)]
pub enum Register {
    P,
    A,
    B,
    R,
    S,
    T,
    /// The carry of extended mode, 0 or 1.
    Carry,
    Io,
    Steps,
}

/// What a node shows.
#[derive(Clone, Copy)]
pub enum What {
    Register(Register),
    /// The word at an address of memory.
    Memory(u16),
    /// The word that it posted at a side and that isn't read yet.
    Pending(Side),
    /// How many words it has written at a side.
    Written(Side),
    /// How many of these were read.
    Read(Side),
    /// The address of the word in execution, or before a fetch P, in nine bits.
    At,
    /// Why it has stopped.
    Stopped,
}

/// What is shown.
#[derive(Clone, Copy)]
pub enum Value {
    Nothing,
    Word(Word18),
    Address(Hex3),
    Count(u64),
    Stop(Stop),
}

impl fmt::Display for Value {
    ghost output = { λ value. Some (value_text value) };

    fn fmt<W: fmt::Write>(&self, f: &mut fmt::Formatter<W>) -> fmt::Result {
        match self {
            Value::Nothing => f.write_str("none"),
            Value::Word(word) => write!(f, "{word}"),
            Value::Address(address) => write!(f, "{address}"),
            Value::Count(count) => write!(f, "{count}"),
            Value::Stop(stop) => write!(f, "{stop}"),
        }
    }
}

impl Value {
    /// Whether two values are the same.
    pub fn is(&self, other: &Value) -> bool
        ensures { result ≡ same_value self.now other.now }
    {
        match (self, other) {
            (Value::Nothing, Value::Nothing) => true,
            (Value::Word(one), Value::Word(other)) => one == other,
            (Value::Address(one), Value::Address(other)) => one == other,
            (Value::Count(one), Value::Count(other)) => one == other,
            (Value::Stop(one), Value::Stop(other)) => is_same_stop(*one, *other),
            _ => false,
        }
    }
}

fn is_same_stop(one: Stop, other: Stop) -> bool
    ensures { result ≡ same_stop one other }
{
    matches!(
        (one, other),
        (Stop::MultiWrite, Stop::MultiWrite)
            | (Stop::IoRead, Stop::IoRead)
            | (Stop::Unmapped, Stop::Unmapped)
            | (Stop::Rom, Stop::Rom)
            | (Stop::Counted, Stop::Counted)
    )
}

/// What a node of a chip shows. (The values are this project's own: profile.)
#[tactic(auto, unfolding(crate::specs::What::value_of))]
pub fn value_of(chip: &Chip, node: Node, what: What) -> Value
    ensures { result ≡ value_of what node chip.now }
{
    let state = chip.state(node);
    match what {
        What::Register(register) => register_value(state, register),
        What::Memory(address) => memory_value(state, locate(address)),
        What::Pending(side) => pending_value(chip, node, side),
        What::Written(side) => Value::Count(chip.ledger(node, side).written),
        What::Read(side) => Value::Count(chip.ledger(node, side).read),
        What::At => at_value(state),
        What::Stopped => stop_value(state),
    }
}

fn register_value(state: &NodeState, register: Register) -> Value
    ensures { result ≡ register_value register state.now }
{
    match register {
        Register::P => Value::Address(Hex3::new(state.p())),
        Register::A => Value::Word(state.a()),
        Register::B => Value::Address(Hex3::new(state.b())),
        Register::R => Value::Word(state.r()),
        Register::S => Value::Word(state.s()),
        Register::T => Value::Word(state.t()),
        Register::Carry => Value::Count(if state.carry() { 1 } else { 0 }),
        Register::Io => Value::Word(state.io()),
        Register::Steps => Value::Count(state.steps()),
    }
}

fn memory_value(state: &NodeState, at: Where) -> Value
    ensures { result ≡ memory_value at state.now }
{
    match at {
        Where::Ram(index) => match state.ram().get(usize::from(index)) {
            Some(word) => Value::Word(*word),
            None => Value::Word(Word18::default()),
        },
        _ => Value::Nothing,
    }
}

#[tactic(auto, unfolding(crate::specs::What::value_of))]
fn pending_value(chip: &Chip, node: Node, side: Side) -> Value
    ensures { result ≡ value_of (What.Pending side) node chip.now }
{
    let Some(at) = cell(node, side) else {
        return Value::Nothing;
    };
    match chip.cells().pending(at) {
        Some(word) => Value::Word(word),
        None => Value::Nothing,
    }
}

fn at_value(state: &NodeState) -> Value
    ensures { result ≡ at_value state.now }
{
    let address = at_word(state.place(), state.p(), state.word());
    Value::Address(Hex3::new(address % 0x200))
}

fn stop_value(state: &NodeState) -> Value
    ensures { result ≡ stop_or (stop_of (need_of state.now)) }
{
    match state.stop() {
        Some(stop) => Value::Stop(stop),
        None => Value::Nothing,
    }
}
