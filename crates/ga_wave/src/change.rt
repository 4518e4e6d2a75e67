//! What changed at a node from one turn to the next.
ghost use Rattle.std.specs.Prelude.{◌≡◌, ◌++◌, ◌<◌, ◌*◌, OnOk, string_bytes};
ghost use Rattle.ga_waits.specs.Label.{images_in};
ghost use Rattle.ga_wave.specs.Change as spec;
ghost use Rattle.ga_wave.specs.Change.{change, changes, is_new, value_line};

use crate::identifier::push_identifier;
use crate::sample::Sample;
use crate::signal::{SIGNALS, Signal, is_signal, position_of};
use crate::value::{Value, push_value, value_of};
use ga_asm::Images;
use ga_place::Node;
use std::alloc::AllocError;

/// The number of a signal of the node with this number.
pub(crate) fn signal_number(number: u8, signal: Signal) -> usize
    ensures value { result ≡ spec.signal_number number signal }
    ensures bound { result < 94 * 95 }
{
    usize::from(number) * 15 + position_of(signal)
}

/// Adds the signals of a node that changed, in their order. If nothing was shown before, all did.
#[tactic(auto, unfolding(crate::specs::Change::changes))]
pub(crate) fn push_changes(
    text: &mut String,
    images: Option<&Images>,
    node: Node,
    number: u8,
    old: &Option<Sample>,
    new: &Sample,
) -> Result<(), AllocError>
    ensures { OnOk result (string_bytes text.new ≡ string_bytes text.old
        ++ changes (images_in images.entry) node number old.now new.now) }
{
    for signal in SIGNALS {
        push_change(text, images, node, number, old, new, signal)?;
    }
    Ok(())
}

/// Adds the value of a signal, if the node has it and it changed.
fn push_change(
    text: &mut String,
    images: Option<&Images>,
    node: Node,
    number: u8,
    old: &Option<Sample>,
    new: &Sample,
    signal: Signal,
) -> Result<(), AllocError>
    ensures { OnOk result (string_bytes text.new ≡ string_bytes text.old
        ++ change (images_in images.entry) node number old.now new.now signal) }
{
    let value = value_of(signal, new);
    if is_signal(node, signal) && is_new(old, signal, &value) {
        push_line(text, images, node, signal_number(number, signal), &value)?;
    }
    Ok(())
}

/// Whether the value of a signal isn't what was shown before.
fn is_new(old: &Option<Sample>, signal: Signal, value: &Value) -> bool
    ensures { result ≡ is_new old.now signal value.now }
{
    match old {
        Some(old) => !value_of(signal, old).is(value),
        None => true,
    }
}

/// Adds the line of a value, with the number of its signal.
fn push_line(
    text: &mut String,
    images: Option<&Images>,
    node: Node,
    number: usize,
    value: &Value,
) -> Result<(), AllocError>
    requires { number < 94 * 95 }
    ensures { OnOk result (string_bytes text.new ≡ string_bytes text.old
        ++ value_line (images_in images.entry) node number value.now) }
{
    push_value(text, images, node, value)?;
    push_identifier(text, number)?;
    text.push_str("\n")
}
