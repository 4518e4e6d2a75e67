//! The signals of a node.
ghost use Rattle.std.specs.Prelude.{◌≡◌, ◌<◌};
ghost use Rattle.ga_wave.specs.Signal as spec;
ghost use Rattle.ga_wave.specs.Signal.{SIGNALS, is_signal};

use ga_place::{Node, Side, neighbour};

/// What a waveform shows of a node. The laws speak of it.
#[derive(Clone, Copy)]
pub enum Signal {
    /// What the node did.
    Did,
    /// The address of the word in execution, or before a fetch P.
    At,
    /// The opcode, or its place if that is no slot.
    Op,
    /// Whether it made a step.
    Busy,
    P,
    T,
    S,
    R,
    A,
    B,
    Io,
    /// The word that it posted at a side.
    Port(Side),
}

/// The signals of a node in their order.
pub(crate) const SIGNALS: [Signal; 15] = [
    Signal::Did,
    Signal::At,
    Signal::Op,
    Signal::Busy,
    Signal::P,
    Signal::T,
    Signal::S,
    Signal::R,
    Signal::A,
    Signal::B,
    Signal::Io,
    Signal::Port(Side::Right),
    Signal::Port(Side::Down),
    Signal::Port(Side::Left),
    Signal::Port(Side::Up),
];

/// The place of a signal in this order, counted from 0.
pub(crate) fn position_of(signal: Signal) -> usize
    ensures value { result ≡ spec.position_of signal }
    ensures bound { result < 15 }
{
    match signal {
        Signal::Did => 0,
        Signal::At => 1,
        Signal::Op => 2,
        Signal::Busy => 3,
        Signal::P => 4,
        Signal::T => 5,
        Signal::S => 6,
        Signal::R => 7,
        Signal::A => 8,
        Signal::B => 9,
        Signal::Io => 10,
        Signal::Port(Side::Right) => 11,
        Signal::Port(Side::Down) => 12,
        Signal::Port(Side::Left) => 13,
        Signal::Port(Side::Up) => 14,
    }
}

/// Whether a node has a signal: it has each port that it shares with a neighbour.
pub(crate) fn is_signal(node: Node, signal: Signal) -> bool
    ensures { result ≡ is_signal node signal }
{
    match signal {
        Signal::Port(side) => neighbour(node, side).is_some(),
        _ => true,
    }
}
