//! What a waveform shows of a node in a turn.
ghost use Rattle.std.specs.Prelude.{◌≡◌, ◌==◌, not};
ghost use Rattle.ga_place.specs.Side.{side_bit};
ghost use Rattle.ga_wave.specs.Sample as spec;
ghost use Rattle.ga_wave.specs.Sample.{state_at};

use crate::deed::{Did, Intent, intent_of, rest_did, step_did};
use crate::work::{Work, work_of};
use ga_chip::Chip;
use ga_node::NodeState;
use ga_place::{Node, Side, Where, cell, locate};
use ga_trace::{at_word, spins};
use ga_word::{Hex3, Word18};

/// Where a node stands before a turn.
#[derive(Clone, Copy)]
pub(crate) struct Stand {
    pub(crate) intent: Intent,
    pub(crate) held: bool,
    /// Whether it goes round by own steps alone.
    pub(crate) spins: bool,
    pub(crate) steps: u64,
    /// The address of the word in execution, or before a fetch P.
    pub(crate) address: Hex3,
    /// What this address reaches.
    pub(crate) reaches: Where,
    pub(crate) work: Work,
}

/// The registers of a node.
#[derive(Clone, Copy)]
pub(crate) struct Registers {
    pub(crate) p: u16,
    pub(crate) t: Word18,
    pub(crate) s: Word18,
    pub(crate) r: Word18,
    pub(crate) a: Word18,
    pub(crate) b: u16,
    pub(crate) io: Word18,
}

/// The words at the ports of a node that it posted.
#[derive(Clone, Copy)]
pub(crate) struct Ports {
    pub(crate) right: Option<Word18>,
    pub(crate) down: Option<Word18>,
    pub(crate) left: Option<Word18>,
    pub(crate) up: Option<Word18>,
}

/// What a waveform shows of a node in a turn: where it stood before it, what it did in it, and its
/// registers and ports behind it.
#[derive(Clone, Copy)]
pub(crate) struct Sample {
    pub(crate) stand: Stand,
    pub(crate) did: Did,
    /// Whether it made a step, and doesn't spin.
    pub(crate) busy: bool,
    pub(crate) registers: Registers,
    pub(crate) ports: Ports,
}

/// Where a node stands.
pub(crate) fn stand_in(chip: &Chip, node: Node) -> Stand
    ensures { result ≡ spec.stand_in chip.now node }
{
    let state = state_at(chip, node);
    let address = at_word(state.place(), state.p(), state.word());
    Stand {
        intent: intent_of(&state.need()),
        held: chip.is_held(node),
        spins: spins(chip, node),
        steps: state.steps(),
        address: Hex3::new(address),
        reaches: locate(address),
        work: work_of(state.place(), state.word()),
    }
}

fn state_at(chip: &Chip, node: Node) -> &NodeState
    ensures { result.now ≡ state_at chip.now node }
{
    chip.state(node)
}

/// What a turn with a side shows of a node that stood so before it, by the chip behind it.
#[tactic(auto, unfolding(crate::specs::Sample::sample_of))]
pub(crate) fn sample_of(side: Side, stand: &Stand, chip: &Chip, node: Node) -> Sample
    ensures { result ≡ spec.sample_of side stand.now chip.now node }
{
    let state = state_at(chip, node);
    let moved = state.steps() != stand.steps;
    Sample {
        stand: *stand,
        did: did_of(side, stand, moved),
        busy: moved && !stand.spins,
        registers: registers_of(state),
        ports: ports_of(&stand.intent, moved, chip, node),
    }
}

/// What a node did, by whether it made a step.
fn did_of(side: Side, stand: &Stand, moved: bool) -> Did
    ensures { result ≡ spec.did_of side stand.now moved }
{
    if moved && stand.spins {
        Did::Spins
    } else if moved {
        step_did(side, stand.intent)
    } else if stand.held {
        Did::Held
    } else {
        rest_did(stand.intent)
    }
}

fn registers_of(state: &NodeState) -> Registers
    ensures { result ≡ spec.registers_of state.now }
{
    Registers {
        p: state.p(),
        t: state.t(),
        s: state.s(),
        r: state.r(),
        a: state.a(),
        b: state.b(),
        io: state.io(),
    }
}

fn ports_of(intent: &Intent, moved: bool, chip: &Chip, node: Node) -> Ports
    ensures { result ≡ spec.ports_of intent.now moved chip.now node }
{
    Ports {
        right: word_at(intent, moved, chip, node, Side::Right),
        down: word_at(intent, moved, chip, node, Side::Down),
        left: word_at(intent, moved, chip, node, Side::Left),
        up: word_at(intent, moved, chip, node, Side::Up),
    }
}

/// The word that a node posted at a side in a turn, even if it was read in it, or that is pending
/// there behind the turn.
fn word_at(intent: &Intent, moved: bool, chip: &Chip, node: Node, side: Side) -> Option<Word18>
    ensures { result ≡ spec.word_at intent.now moved chip.now node side }
{
    match *intent {
        Intent::Post(at, word) if moved && is_same_side(at, side) => Some(word),
        _ => pending_at(chip, node, side),
    }
}

fn pending_at(chip: &Chip, node: Node, side: Side) -> Option<Word18>
    ensures { result ≡ spec.pending_at chip.now node side }
{
    match cell(node, side) {
        Some(at) => chip.cells().pending(at),
        None => None,
    }
}

fn is_same_side(one: Side, other: Side) -> bool
    ensures { result ≡ (side_bit one == side_bit other) }
{
    matches!(
        (one, other),
        (Side::Right, Side::Right)
            | (Side::Down, Side::Down)
            | (Side::Left, Side::Left)
            | (Side::Up, Side::Up)
    )
}
