//! GTKWave's save file for a waveform.
ghost use Rattle.std.specs.Prelude.{◌≡◌, ◌++◌, IfOk, OnOk, string_bytes};
ghost use Rattle.std.specs.List.{flat_map};
ghost use Rattle.ga_wave.specs.Save as spec;
ghost use Rattle.ga_wave.specs.Save.{SAVED, WINDOW, heading, save_text, saved_node, saved_signal, saved_signals};

use crate::header::{push_bits, push_signal_name};
use crate::signal::{Signal, is_signal};
use crate::wave::shown_nodes;
use ga_place::{Node, Side};
use std::alloc::{AllocError, Global};
use std::fmt::Write;

/// The signals that are shown of a node, in order.
const SAVED: [Signal; 9] = [
    Signal::Busy,
    Signal::Did,
    Signal::At,
    Signal::Op,
    Signal::T,
    Signal::Port(Side::Right),
    Signal::Port(Side::Down),
    Signal::Port(Side::Left),
    Signal::Port(Side::Up),
];

/// A save file of GTKWave for a [`waveform`](crate::waveform) of some nodes: their signals in order
/// of name, with forms, colours and a zoom. Fails only when out of memory. (The text is this
/// project's own: profile. It is as GTKWave 3.3 writes it.)
#[tactic(auto, unfolding(crate::specs::Save::save_text))]
pub fn save_text(alloc: Global, nodes: &[Node]) -> Result<String, AllocError>
    ensures { IfOk result (λ text. string_bytes text ≡ save_text nodes.now) }
{
    let shown = shown_nodes(alloc, nodes)?;
    let mut text = String::new(alloc);
    push_window(&mut text)?;
    push_nodes(&mut text, &shown)?;
    Ok(text)
}

/// Adds how the window is.
#[tactic(auto, unfolding(crate::specs::Save::WINDOW))]
fn push_window(text: &mut String) -> Result<(), AllocError>
    ensures { OnOk result (string_bytes text.new ≡ string_bytes text.old ++ WINDOW) }
{
    text.push_str("[timestart] 0\n[size] 1500 860\n[pos] 0 0\n")?;
    text.push_str("*-2.600000 0 -1 -1 -1\n[treeopen] chip.\n")?;
    text.push_str("[sst_width] 190\n[signals_width] 190\n[sst_expanded] 0\n")?;
    Ok(())
}

/// Adds the lines of nodes.
fn push_nodes(text: &mut String, nodes: &[Node]) -> Result<(), AllocError>
    ensures { OnOk result (string_bytes text.new
        ≡ string_bytes text.old ++ flat_map saved_node nodes.now) }
{
    for node in nodes {
        push_node(text, *node)?;
    }
    Ok(())
}

/// Adds the lines of a node.
fn push_node(text: &mut String, node: Node) -> Result<(), AllocError>
    ensures { OnOk result (string_bytes text.new ≡ string_bytes text.old ++ saved_node node) }
{
    push_heading(text, node)?;
    push_signals(text, node)
}

/// Adds the heading of a node.
fn push_heading(text: &mut String, node: Node) -> Result<(), AllocError>
    ensures { OnOk result (string_bytes text.new ≡ string_bytes text.old ++ heading node) }
{
    writeln!(text, "@200\n-{node}")
}

/// Adds the lines of the signals of a node.
#[tactic(auto, unfolding(crate::specs::Save::saved_signals))]
fn push_signals(text: &mut String, node: Node) -> Result<(), AllocError>
    ensures { OnOk result (string_bytes text.new
        ≡ string_bytes text.old ++ saved_signals node) }
{
    for signal in SAVED {
        push_signal(text, node, signal)?;
    }
    Ok(())
}

/// Adds the lines of a signal, if the node has it.
fn push_signal(text: &mut String, node: Node, signal: Signal) -> Result<(), AllocError>
    ensures { OnOk result (string_bytes text.new
        ≡ string_bytes text.old ++ saved_signal node signal) }
{
    if !is_signal(node, signal) {
        return Ok(());
    }
    text.push_str(form(signal))?;
    write!(text, "chip.n{node}.")?;
    push_signal_name(text, node, signal)?;
    push_bits(text, "", signal)?;
    text.push_str("\n")
}

/// The colour of a signal, if it isn't the usual one, and its form, a line each.
fn form(signal: Signal) -> &'static str
    ensures { result.now ≡ spec.form signal }
{
    match signal {
        Signal::Busy => "[color] 2\n@28\n",
        Signal::Did => "[color] 2\n@820\n",
        Signal::At | Signal::Op => "@820\n",
        Signal::Port(_) => "[color] 3\n@22\n",
        _ => "@22\n",
    }
}
