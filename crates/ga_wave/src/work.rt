//! What a node runs.
ghost use Rattle.std.specs.Prelude.{◌≡◌};
ghost use Rattle.std.specs.List.{slice_get};
ghost use Rattle.std.specs.Option.{unwrap_or};
ghost use Rattle.ga_word.specs.declared.op.Op.TheVariants.{Nop};
ghost use Rattle.ga_pack.specs.Decoded.{reading_of};
ghost use Rattle.ga_node.specs.Line.{place_text};
ghost use Rattle.ga_wave.specs.Work as spec;

use ga_node::Place;
use ga_pack::decode;
use ga_word::{Op, Word18};

/// An opcode, or a place that is no slot.
#[derive(Clone, Copy)]
pub(crate) enum Work {
    Runs(Op),
    Elsewhere(Place),
}

/// What a node runs at a place of a word.
pub(crate) fn work_of(place: Place, word: Word18) -> Work
    ensures { result ≡ spec.work_of place word }
{
    match place {
        Place::Slot0 => Work::Runs(op_in(word, 0)),
        Place::Slot1 => Work::Runs(op_in(word, 1)),
        Place::Slot2 => Work::Runs(op_in(word, 2)),
        Place::Slot3 => Work::Runs(op_in(word, 3)),
        _ => Work::Elsewhere(place),
    }
}

/// The opcode of a word in a slot, or `.` if the word has no such slot.
fn op_in(word: Word18, slot: usize) -> Op
    ensures { result ≡ unwrap_or (slice_get (reading_of word).ops slot) Nop }
{
    decode(word)
        .ops
        .as_slice()
        .get(slot)
        .copied()
        .unwrap_or(Op::Nop)
}

/// Its name.
pub(crate) fn work_name(work: Work) -> &'static str
    ensures { result.now ≡ spec.work_text work }
{
    match work {
        Work::Runs(op) => op.name(),
        Work::Elsewhere(place) => place_name(place),
    }
}

fn place_name(place: Place) -> &'static str
    ensures { result.now ≡ place_text place }
{
    match place {
        Place::Fetch => "fetch",
        Place::Slot0 => "slot0",
        Place::Slot1 => "slot1",
        Place::Slot2 => "slot2",
        Place::Slot3 => "slot3",
        Place::Completion => "completion",
        Place::Transfer => "transfer",
        Place::Count => "count",
        Place::Body => "body",
    }
}
