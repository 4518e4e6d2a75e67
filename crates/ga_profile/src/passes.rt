//! Passes of a node through the places of its program at which it uses ports.
ghost use Rattle.std.specs.Prelude.{◌≡◌, ◌+◌, ◌<◌, IfSome};
ghost use Rattle.ga_profile.specs.Passes as spec;
ghost use Rattle.ga_profile.specs.Passes.{NO_PASSES};

use ga_node::Place;
use ga_observe::{Deed, Step};
use ga_place::{Node, Where, locate};
use ga_trace::at_word;

/// When a node makes a step.
#[derive(Clone, Copy)]
pub struct Moment {
    pub turn: u64,
    /// How many steps the node had made before.
    pub number: u64,
}

/// The steps of a node at a place of its program at which it takes or posts a word.
#[derive(Clone, Copy)]
pub struct Passes {
    /// How many they are. A count stays at 2^64 - 1.
    pub count: u64,
    pub first: Moment,
    pub last: Moment,
}

/// No passes.
pub(crate) fn no_passes() -> Passes
    ensures { result ≡ NO_PASSES }
{
    let never = Moment { turn: 0, number: 0 };
    Passes {
        count: 0,
        first: never,
        last: never,
    }
}

/// The passes after one more step.
pub(crate) fn passed(old: &Passes, step: &Step) -> Passes
    ensures { result ≡ spec.passed old.now step.now }
{
    let now = Moment {
        turn: step.turn,
        number: step.number,
    };
    Passes {
        count: old.count.saturating_add(1),
        first: first_by(old, now),
        last: now,
    }
}

/// When the first pass was.
fn first_by(old: &Passes, now: Moment) -> Moment
    ensures { result ≡ spec.first_by old.now now }
{
    if old.count == 0 { now } else { old.first }
}

/// The place of a step that takes or posts a word, among all: 256 for each node, four slots for
/// each word of its memory.
#[tactic(auto, unfolding(crate::specs::Passes::place_of))]
pub(crate) fn place_of(step: &Step) -> Option<usize>
    ensures place { result ≡ spec.place_of step.now }
    ensures bound { IfSome result (λ place. place < 36864) }
{
    let slot = slot_used(step.place, &step.deed);
    let word = word_at(at_word(step.place, step.p % 0x400, step.word));
    place_by(step.node, slot, word)
}

/// The place of a slot of a word of a node.
fn place_by(node: Node, slot: Option<usize>, word: Option<usize>) -> Option<usize>
    requires slot { IfSome slot (λ slot. slot < 4) }
    requires word { IfSome word (λ word. word < 64) }
    ensures place { result ≡ spec.place_by node slot word }
    ensures bound { IfSome result (λ place. place < 36864) }
{
    match (slot, word) {
        (Some(slot), Some(word)) => Some(node.index() * 256 + word * 4 + slot),
        _ => None,
    }
}

/// The slot of a step that takes or posts a word.
fn slot_used(place: Place, deed: &Deed) -> Option<usize>
    ensures slot { result ≡ spec.slot_used place deed.now }
    ensures bound { IfSome result (λ slot. slot < 4) }
{
    match deed {
        Deed::Took { .. } | Deed::Posted(_, _) => slot_at(place),
        _ => None,
    }
}

fn slot_at(place: Place) -> Option<usize>
    ensures slot { result ≡ spec.slot_at place }
    ensures bound { IfSome result (λ slot. slot < 4) }
{
    match place {
        Place::Slot0 => Some(0),
        Place::Slot1 => Some(1),
        Place::Slot2 => Some(2),
        Place::Slot3 => Some(3),
        _ => None,
    }
}

/// The word of memory at an address.
pub(crate) fn word_at(address: u16) -> Option<usize>
    ensures word { result ≡ spec.word_at address }
    ensures bound { IfSome result (λ word. word < 64) }
{
    match locate(address) {
        Where::Ram(index) => Some(usize::from(index) % 64),
        _ => None,
    }
}
