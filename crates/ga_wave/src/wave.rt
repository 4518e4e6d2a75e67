//! The nodes of a waveform, and what a turn changes of them.
ghost use Rattle.std.specs.Prelude.{◌≡◌, ◌++◌, ◌∷◌, [], ◌+◌, ◌≤◌, IfOk, OnOk, length, map, string_bytes};
ghost use Rattle.ga_chip.specs.Run.{side_of_turn as side_of};
ghost use Rattle.ga_waits.specs.Label.{images_in};
ghost use Rattle.ga_trace.specs.Traced.{turned};
ghost use Rattle.ga_wave.specs.Wave.{UNIT, if_shown, shown_names, time_line, turn_block};
ghost use Rattle.ga_wave.specs.inner.Traced as spec;
ghost use Rattle.ga_wave.specs.Tracer.{traced_by};
ghost use Rattle.ga_wave.specs.inner.Traced.{first_traced, scopes_of, traced_changes};

use crate::change::push_changes;
use crate::header::push_scope;
use crate::sample::{Sample, Stand, sample_of, stand_in};
use ga_asm::Images;
use ga_chip::{Chip, side_of_turn};
use ga_place::{Node, Side};
use std::alloc::{AllocError, Global};
use std::fmt::Write;

/// A node that a waveform shows.
#[derive(Clone, Copy)]
pub(crate) struct Traced {
    pub(crate) node: Node,
    /// Its number among these nodes, counted from 0.
    pub(crate) number: u8,
    /// Where it stands.
    pub(crate) stand: Stand,
    /// What the turn before shows of it, if there was one.
    pub(crate) shown: Option<Sample>,
}

/// Those of some nodes that a waveform shows: in order of name, each once.
pub(crate) fn shown_nodes(alloc: Global, nodes: &[Node]) -> Result<Vec<Node>, AllocError>
    ensures names { IfOk result (λ shown. shown.items ≡ shown_names nodes.now) }
    ensures count { IfOk result (λ shown. length shown.items ≤ 144) }
{
    let mut shown = Vec::new(alloc);
    for index in 0..144 {
        push_shown(&mut shown, nodes, Node::at(index))?;
    }
    Ok(shown)
}

/// Adds a node, if it is one of some nodes.
fn push_shown(shown: &mut Vec<Node>, nodes: &[Node], node: Node) -> Result<(), AllocError>
    ensures value { OnOk result (shown.new.items
        ≡ shown.old.items ++ if_shown nodes.now node) }
    ensures bound { OnOk result (length shown.new.items ≤ length shown.old.items + 1) }
{
    if nodes.contains(&node) {
        shown.push(node)?;
    }
    Ok(())
}

/// The nodes before the first turn, with their numbers.
pub(crate) fn traced_nodes(
    alloc: Global,
    chip: &Chip,
    nodes: &[Node],
) -> Result<Vec<Traced>, AllocError>
    requires { length nodes.now ≤ 144 }
    ensures { IfOk result (λ traced. traced.items ≡ traced_by chip.now 0 nodes.now) }
{
    let mut traced = Vec::new(alloc);
    for (number, node) in nodes.iter().enumerate() {
        traced = with_one(alloc, &traced, &first_traced(chip, *node, number as u8))?;
    }
    Ok(traced)
}

/// Some nodes and one more.
fn with_one(alloc: Global, traced: &[Traced], one: &Traced) -> Result<Vec<Traced>, AllocError>
    ensures { IfOk result (λ more. more.items ≡ traced.now ++ one.now ∷ []) }
{
    let mut more = Vec::from_slice(alloc, traced)?;
    more.push(*one)?;
    Ok(more)
}

/// A node before the first turn.
fn first_traced(chip: &Chip, node: Node, number: u8) -> Traced
    ensures { result ≡ first_traced chip.now number node }
{
    Traced {
        node,
        number,
        stand: stand_in(chip, node),
        shown: None,
    }
}

/// Adds the declarations.
pub(crate) fn push_header(text: &mut String, traced: &[Traced]) -> Result<(), AllocError>
    ensures { OnOk result (string_bytes text.new ≡ string_bytes text.old
        ++ spec.header_of traced.now) }
{
    push_unit(text)?;
    push_scopes(text, traced)?;
    text.push_str("$upscope $end\n$enddefinitions $end\n")?;
    Ok(())
}

/// Adds the unit of time, and begins the scope of the chip.
fn push_unit(text: &mut String) -> Result<(), AllocError>
    ensures { OnOk result (string_bytes text.new ≡ string_bytes text.old ++ UNIT) }
{
    text.push_str("$comment ga-bench: 1 ns is a turn of the chip $end\n")?;
    text.push_str("$timescale 1 ns $end\n")?;
    text.push_str("$scope module chip $end\n")?;
    Ok(())
}

/// Adds the scopes of nodes.
fn push_scopes(text: &mut String, traced: &[Traced]) -> Result<(), AllocError>
    ensures { OnOk result (string_bytes text.new ≡ string_bytes text.old
        ++ scopes_of traced.now) }
{
    for one in traced {
        push_scope(text, one.node, one.number)?;
    }
    Ok(())
}

/// Makes the turn of a number, and adds what it changed. Answers the nodes behind it.
pub(crate) fn push_turn(
    text: &mut String,
    alloc: Global,
    chip: &mut Chip,
    images: Option<&Images>,
    traced: &[Traced],
    turn: u64,
) -> Result<Vec<Traced>, AllocError>
    ensures chip { OnOk result (chip.new ≡ turned turn chip.old) }
    ensures text { OnOk result (string_bytes text.new ≡ string_bytes text.old
        ++ turn_block turn (traced_changes (images_in images.entry) (side_of turn)
        (turned turn chip.old) traced.now)) }
    ensures traced { IfOk result (λ next. next.items
        ≡ map (spec.next_traced (side_of turn) (turned turn chip.old)) traced.now) }
{
    let side = side_of_turn(turn);
    let _moved = chip.turn(side);
    push_block(text, alloc, chip, images, traced, turn)?;
    next_nodes(alloc, side, chip, traced)
}

/// Adds what a turn changed, by the chip behind it.
fn push_block(
    text: &mut String,
    alloc: Global,
    chip: &Chip,
    images: Option<&Images>,
    traced: &[Traced],
    turn: u64,
) -> Result<(), AllocError>
    ensures { OnOk result (string_bytes text.new ≡ string_bytes text.old
        ++ turn_block turn (traced_changes (images_in images.entry) (side_of turn)
        chip.now traced.now)) }
{
    let mut lines = String::new(alloc);
    push_all(&mut lines, images, side_of_turn(turn), chip, traced)?;
    if lines.is_empty() {
        return Ok(());
    }
    push_time(text, turn)?;
    text.push_str(lines.as_str())
}

/// Adds the line of a time.
pub(crate) fn push_time(text: &mut String, turn: u64) -> Result<(), AllocError>
    ensures { OnOk result (string_bytes text.new ≡ string_bytes text.old ++ time_line turn) }
{
    writeln!(text, "#{turn}")?;
    Ok(())
}

/// Adds the changes of all nodes in a turn with a side, by the chip behind it.
fn push_all(
    text: &mut String,
    images: Option<&Images>,
    side: Side,
    chip: &Chip,
    traced: &[Traced],
) -> Result<(), AllocError>
    ensures { OnOk result (string_bytes text.new ≡ string_bytes text.old
        ++ traced_changes (images_in images.entry) side chip.now traced.now) }
{
    for one in traced {
        push_one(text, images, side, chip, one)?;
    }
    Ok(())
}

/// Adds those of a node.
fn push_one(
    text: &mut String,
    images: Option<&Images>,
    side: Side,
    chip: &Chip,
    one: &Traced,
) -> Result<(), AllocError>
    ensures { OnOk result (string_bytes text.new ≡ string_bytes text.old
        ++ spec.one_changes (images_in images.entry) side chip.now one.now) }
{
    let sample = sample_of(side, &one.stand, chip, one.node);
    push_changes(text, images, one.node, one.number, &one.shown, &sample)
}

/// The nodes behind a turn with a side, by the chip behind it.
fn next_nodes(
    alloc: Global,
    side: Side,
    chip: &Chip,
    traced: &[Traced],
) -> Result<Vec<Traced>, AllocError>
    ensures { IfOk result (λ next. next.items
        ≡ map (spec.next_traced side chip.now) traced.now) }
{
    let mut next = Vec::new(alloc);
    for one in traced {
        next.push(next_traced(side, chip, one))?;
    }
    Ok(next)
}

fn next_traced(side: Side, chip: &Chip, one: &Traced) -> Traced
    ensures { result ≡ spec.next_traced side chip.now one.now }
{
    Traced {
        node: one.node,
        number: one.number,
        stand: stand_in(chip, one.node),
        shown: Some(sample_of(side, &one.stand, chip, one.node)),
    }
}
