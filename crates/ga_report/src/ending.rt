//! What a node does at the end of a window.
ghost use Rattle.std.specs.Prelude.{◌≡◌};
ghost use Rattle.ga_report.specs.Ending as spec;

use crate::kind::Kind;
use ga_chip::Chip;
use ga_node::{Need, Place};
use ga_place::Node;
use ga_profile::NodeTurns;
use ga_trace::spins;

/// What a node does at the end of a window, by what it did there.
pub(crate) fn kind_at_end(chip: &Chip, did: &NodeTurns, node: Node) -> Kind
    ensures { result ≡ spec.kind_at_end did.now chip.now node }
{
    if spins(chip, node) {
        Kind::Spins
    } else {
        let state = chip.state(node);
        kind_since(did.began, state.place(), state.need())
    }
}

/// What a node of this need does that doesn't spin.
fn kind_since(began: Option<u64>, place: Place, need: Need) -> Kind
    ensures { result ≡ spec.kind_since began place need }
{
    match began {
        Some(_) => kind_by(place, need),
        None => Kind::Idle,
    }
}

/// What a node of this need does that has started.
fn kind_by(place: Place, need: Need) -> Kind
    ensures { result ≡ spec.kind_by place need }
{
    match need {
        Need::Own => Kind::Works,
        Need::Take(_) => kind_to_take(place),
        Need::Post(_, _) | Need::Check(_) => Kind::AwaitsReader,
        Need::Input => Kind::Idle,
        Need::Stopped(_) => Kind::Stopped,
    }
}

/// What a node does that takes a word at a place: before a fetch the word is code.
fn kind_to_take(place: Place) -> Kind
    ensures { result ≡ spec.kind_to_take place }
{
    match place {
        Place::Fetch => Kind::Idle,
        _ => Kind::AwaitsWord,
    }
}
