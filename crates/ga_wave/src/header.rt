//! The declarations of a waveform.
ghost use Rattle.std.specs.Prelude.{◌≡◌, ◌++◌, ◌<◌, ◌*◌, OnOk, string_bytes};
ghost use Rattle.ga_wave.specs.Header as spec;
ghost use Rattle.ga_wave.specs.Header.{beginning, bits, declaration, port_name, scope, signal_name};

use crate::change::signal_number;
use crate::identifier::push_identifier;
use crate::signal::{SIGNALS, Signal, is_signal};
use ga_dump::side_name;
use ga_place::{Node, Side, neighbour};
use std::alloc::AllocError;
use std::fmt::Write;

/// Adds the scope of a node: its signals.
pub(crate) fn push_scope(text: &mut String, node: Node, number: u8) -> Result<(), AllocError>
    ensures { OnOk result (string_bytes text.new ≡ string_bytes text.old
        ++ scope node number) }
{
    push_beginning(text, node)?;
    push_declarations(text, node, number)?;
    text.push_str("$upscope $end\n")?;
    Ok(())
}

/// Adds the beginning of the scope of a node.
fn push_beginning(text: &mut String, node: Node) -> Result<(), AllocError>
    ensures { OnOk result (string_bytes text.new ≡ string_bytes text.old
        ++ beginning node) }
{
    writeln!(text, "$scope module n{node} $end")?;
    Ok(())
}

/// Adds the declarations of the signals of a node.
#[tactic(auto, unfolding(crate::specs::Header::declarations))]
fn push_declarations(text: &mut String, node: Node, number: u8) -> Result<(), AllocError>
    ensures { OnOk result (string_bytes text.new ≡ string_bytes text.old
        ++ spec.declarations node number) }
{
    for signal in SIGNALS {
        push_declaration(text, node, number, signal)?;
    }
    Ok(())
}

/// Adds the declaration of a signal, if the node has it.
fn push_declaration(
    text: &mut String,
    node: Node,
    number: u8,
    signal: Signal,
) -> Result<(), AllocError>
    ensures { OnOk result (string_bytes text.new ≡ string_bytes text.old
        ++ declaration node number signal) }
{
    if !is_signal(node, signal) {
        return Ok(());
    }
    text.push_str("$var ")?;
    text.push_str(declared_type(signal))?;
    push_identifier(text, signal_number(number, signal))?;
    text.push_str(" ")?;
    push_signal_name(text, node, signal)?;
    push_bits(text, " ", signal)?;
    text.push_str(" $end\n")
}

/// The type of a signal and its number of bits, with blanks behind.
fn declared_type(signal: Signal) -> &'static str
    ensures { result.now ≡ spec.declared_type signal }
{
    match signal {
        Signal::Did | Signal::At | Signal::Op => "string 1 ",
        Signal::Busy => "wire 1 ",
        Signal::P => "reg 10 ",
        Signal::B => "reg 9 ",
        Signal::T | Signal::S | Signal::R | Signal::A | Signal::Io => "reg 18 ",
        Signal::Port(_) => "wire 18 ",
    }
}

/// Adds the name of a signal of a node.
pub(crate) fn push_signal_name(
    text: &mut String,
    node: Node,
    signal: Signal,
) -> Result<(), AllocError>
    ensures { OnOk result (string_bytes text.new ≡ string_bytes text.old
        ++ signal_name node signal) }
{
    match signal {
        Signal::Did => text.push_str("did"),
        Signal::At => text.push_str("at"),
        Signal::Op => text.push_str("op"),
        Signal::Busy => text.push_str("busy"),
        Signal::P => text.push_str("p"),
        Signal::T => text.push_str("t"),
        Signal::S => text.push_str("s"),
        Signal::R => text.push_str("r"),
        Signal::A => text.push_str("a"),
        Signal::B => text.push_str("b"),
        Signal::Io => text.push_str("io"),
        Signal::Port(side) => push_port_name(text, side, neighbour(node, side)),
    }
}

/// Adds the name of a port: its side, and the node that reads there.
fn push_port_name(text: &mut String, side: Side, reader: Option<Node>) -> Result<(), AllocError>
    ensures { OnOk result (string_bytes text.new ≡ string_bytes text.old
        ++ port_name side reader) }
{
    if let Some(reader) = reader {
        write!(text, "{}_to_{reader}", side_name(side))?;
    }
    Ok(())
}

/// Adds the bits of a signal, with this in front of them, if it has some.
pub(crate) fn push_bits(text: &mut String, front: &str, signal: Signal) -> Result<(), AllocError>
    ensures { OnOk result (string_bytes text.new ≡ string_bytes text.old
        ++ bits front.now signal) }
{
    match signal {
        Signal::Did | Signal::At | Signal::Op | Signal::Busy => Ok(()),
        Signal::P => write!(text, "{front}[9:0]"),
        Signal::B => write!(text, "{front}[8:0]"),
        _ => write!(text, "{front}[17:0]"),
    }
}
