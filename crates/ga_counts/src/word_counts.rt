//! How often a word was fetched, and the opcode in each of its slots run.
ghost use Rattle.std.specs.Prelude.{◌≡◌, ◌<◌, IfSome, option_map};
ghost use Rattle.ga_counts.specs.Counts as spec;
ghost use Rattle.ga_counts.specs.Counts.{NO_COUNTS};

use ga_node::Place;
use ga_observe::{Deed, Step};
use ga_place::{Node, Where, locate};

/// How often a word of memory was fetched, and the opcode in each of its slots run. A count stays
/// at 2^64 - 1.
#[derive(Clone, Copy)]
pub struct WordCounts {
    pub fetches: u64,
    pub slot0: u64,
    pub slot1: u64,
    pub slot2: u64,
    pub slot3: u64,
}

/// No counts.
pub(crate) fn no_counts() -> WordCounts
    ensures { result ≡ NO_COUNTS }
{
    WordCounts {
        fetches: 0,
        slot0: 0,
        slot1: 0,
        slot2: 0,
        slot3: 0,
    }
}

/// The counts after one more step at a place of the word.
pub(crate) fn one_more(old: &WordCounts, place: Place) -> WordCounts
    ensures { result ≡ spec.one_more old.now place }
{
    let mut counts = *old;
    match place {
        Place::Fetch => counts.fetches = old.fetches.saturating_add(1),
        Place::Slot0 => counts.slot0 = old.slot0.saturating_add(1),
        Place::Slot1 => counts.slot1 = old.slot1.saturating_add(1),
        Place::Slot2 => counts.slot2 = old.slot2.saturating_add(1),
        Place::Slot3 => counts.slot3 = old.slot3.saturating_add(1),
        _ => {}
    }
    counts
}

/// The word of memory at an address.
fn word_at(address: u16) -> Option<u8>
    ensures { result ≡ spec.word_at address }
{
    match locate(address) {
        Where::Ram(index) => Some(index),
        _ => None,
    }
}

/// The word of memory that a node has in execution after a step, by the one before: a fetch
/// replaces it.
pub(crate) fn word_after(word: Option<u8>, step: &Step) -> Option<u8>
    ensures { result ≡ spec.word_after word step.now }
{
    match step.place {
        Place::Fetch => word_at(step.p),
        _ => word,
    }
}

/// The place at which a step of a node counts that has a word in execution. A check counts nowhere:
/// its opcode ran when it posted.
pub(crate) fn place_counted(node: Node, word: Option<u8>, deed: &Deed) -> Option<usize>
    ensures place { result ≡ option_map (spec.place_of node) (spec.word_counted word deed.now) }
    ensures bound { IfSome result (λ place. place < 9216) }
{
    match deed {
        Deed::SawRead(_) => None,
        _ => Some(place_of(node, usize::from(word?))),
    }
}

/// The place of a word of a node among all words.
pub(crate) fn place_of(node: Node, word: usize) -> usize
    ensures value { result ≡ spec.place_of node word }
    ensures bound { result < 9216 }
{
    node.index() * 64 + word % 64
}
