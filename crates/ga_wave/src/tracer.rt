//! A waveform that is made turn by turn.
ghost use Rattle.std.specs.Prelude.{◌≡◌, ◌++◌, ◌+◌, ℕ, List, IfOk, OnOk, length, nat_lt, not, string_bytes};
ghost use Rattle.ga_chip.specs.Chip.{Chip};
ghost use Rattle.ga_waits.specs.Label.{images_in};
ghost use Rattle.ga_wave.specs.Wave.{header, shown_names, time_line, turn_text, waveform};
ghost use Rattle.ga_wave.specs.Tracer.{IsBehind};

use crate::wave::{Traced, push_header, push_time, push_turn, shown_nodes, traced_nodes};
use ga_asm::Images;
use ga_chip::Chip;
use ga_place::Node;
use std::alloc::{AllocError, Global};

/// A run whose waveform is made turn by turn: its text is that of `new`, of `push_turn` for the
/// turns in order, and of `push_end`, one behind the other.
#[derive(Drop)]
pub struct Tracer {
    chip: Chip,
    traced: Vec<Traced>,
}

impl Tracer {
    /// A run from a chip on, of which the waveform shows some nodes. Adds the declarations to a
    /// text. Fails only when out of memory.
    pub fn new(
        alloc: Global,
        chip: Chip,
        nodes: &[Node],
        text: &mut String,
    ) -> Result<Self, AllocError>
        ensures header { OnOk result (string_bytes text.new
            ≡ string_bytes text.old ++ header (shown_names nodes.now)) }
        ensures begins { IfOk result (IsBehind chip (shown_names nodes.now) 0) }
    {
        let shown = shown_nodes(alloc, nodes)?;
        let traced = traced_nodes(alloc, &chip, &shown)?;
        push_header(text, &traced)?;
        Ok(Tracer { chip, traced })
    }

    /// Makes the turn of a number, and adds what it changed. With images an address has its label.
    /// Fails only when out of memory.
    pub fn push_turn(
        &mut self,
        text: &mut String,
        alloc: Global,
        images: Option<&Images>,
        turn: u64,
    ) -> Result<(), AllocError>
        ensures text { (start : Chip) (names : List ℕ) → IsBehind start names turn self.old
            → OnOk result (string_bytes text.new ≡ string_bytes text.old
            ++ turn_text (images_in images.entry) names start turn) }
        ensures goes_on { (start : Chip) (names : List ℕ) → IsBehind start names turn self.old
            → OnOk result (IsBehind start names (turn + 1) self.new) }
    {
        self.traced = push_turn(text, alloc, &mut self.chip, images, &self.traced, turn)?;
        Ok(())
    }
}

/// Adds the time behind as many turns. Fails only when out of memory.
pub fn push_end(text: &mut String, turns: u32) -> Result<(), AllocError>
    ensures { OnOk result (string_bytes text.new ≡ string_bytes text.old ++ time_line turns) }
{
    push_time(text, u64::from(turns))
}

/// The waveform of this many turns of all nodes of a chip, a text in VCD (IEEE 1364). It shows some
/// nodes, in order of name. A time is the number of a turn. At it a node's `did`, `at`, `op` and
/// `busy` are those of the turn, and its registers and ports those behind it. A port has the word
/// that the node posted there until it is read; if it is read in the turn in which it was posted,
/// it is there at this time alone. With images an address has its label. Fails only when out of
/// memory. (The text is this project's own: profile.)
pub fn waveform(
    alloc: Global,
    chip: Chip,
    images: Option<&Images>,
    nodes: &[Node],
    turns: u32,
) -> Result<String, AllocError>
    ensures { IfOk result (λ text. string_bytes text
        ≡ waveform (images_in images.entry) nodes.now chip turns) }
{
    let mut text = String::new(alloc);
    let mut tracer = Tracer::new(alloc, chip, nodes, &mut text)?;
    for turn in 0..u64::from(turns) {
        tracer.push_turn(&mut text, alloc, images, turn)?;
    }
    push_end(&mut text, turns)?;
    Ok(text)
}

/// Whether the waveform of this many turns of a chip, as [`waveform`] answers it, has at most
/// `most` bytes. It keeps the text of one turn alone. Fails only when out of memory.
pub fn fits(
    alloc: Global,
    chip: Chip,
    images: Option<&Images>,
    nodes: &[Node],
    turns: u32,
    most: usize,
) -> Result<bool, AllocError>
    ensures { IfOk result (λ fits. fits ≡ not (nat_lt most
        (length (waveform (images_in images.entry) nodes.now chip turns)))) }
{
    let mut text = String::new(alloc);
    let mut tracer = Tracer::new(alloc, chip, nodes, &mut text)?;
    let mut left = most;
    for turn in 0..u64::from(turns) {
        if text.len() > left {
            return Ok(false);
        }
        left -= text.len();
        text.clear();
        tracer.push_turn(&mut text, alloc, images, turn)?;
    }
    push_end(&mut text, turns)?;
    Ok(text.len() <= left)
}
