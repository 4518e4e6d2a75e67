//! What a node does in most of some turns.
ghost use Rattle.std.specs.Prelude.{◌≡◌};
ghost use Rattle.ga_report.specs.Most as spec;

use crate::kind::Kind;
use ga_profile::TurnCounts;

/// In how many turns a node does what.
#[derive(Clone, Copy)]
struct Tally {
    kind: Kind,
    turns: u64,
}

/// What a node does in most of some turns, by its counts up to the first one and up to the last.
pub(crate) fn most_between(before: &TurnCounts, after: &TurnCounts, turns: u64) -> Kind
    ensures { result ≡ spec.most_of (spec.between before.now after.now) turns }
{
    most_of(&between(before, after), turns)
}

/// The counts up to some turns less those up to others.
#[tactic(auto, unfolding(crate::specs::Most::between))]
pub(crate) fn between(before: &TurnCounts, after: &TurnCounts) -> TurnCounts
    ensures { result ≡ spec.between before.now after.now }
{
    TurnCounts {
        boots: after.boots.saturating_sub(before.boots),
        works: after.works.saturating_sub(before.works),
        word_waits: after.word_waits.saturating_sub(before.word_waits),
        reader_waits: after.reader_waits.saturating_sub(before.reader_waits),
        spins: after.spins.saturating_sub(before.spins),
        stops: after.stops.saturating_sub(before.stops),
    }
}

/// What a node does in most of some turns.
#[tactic(auto, unfolding(crate::specs::Most::most_of))]
fn most_of(counts: &TurnCounts, turns: u64) -> Kind
    ensures { result ≡ spec.most_of counts.now turns }
{
    let most = more_of(most_acts(counts), most_waits(counts));
    more_of(most, tally_of(Kind::Idle, idle_turns(counts, turns))).kind
}

/// The most that a node moves.
fn most_acts(counts: &TurnCounts) -> Tally
    ensures { result ≡ spec.most_acts counts.now }
{
    let works = tally_of(Kind::Works, counts.works);
    let spins = tally_of(Kind::Spins, counts.spins);
    more_of(more_of(works, spins), tally_of(Kind::Boots, counts.boots))
}

/// The most that a node waits.
fn most_waits(counts: &TurnCounts) -> Tally
    ensures { result ≡ spec.most_waits counts.now }
{
    let words = tally_of(Kind::AwaitsWord, counts.word_waits);
    let readers = tally_of(Kind::AwaitsReader, counts.reader_waits);
    more_of(
        more_of(words, readers),
        tally_of(Kind::Stopped, counts.stops),
    )
}

/// In how many of some turns a node is idle.
fn idle_turns(counts: &TurnCounts, turns: u64) -> u64
    ensures { result ≡ spec.idle_turns counts.now turns }
{
    turns
        .saturating_sub(counts.boots)
        .saturating_sub(counts.works)
        .saturating_sub(counts.word_waits)
        .saturating_sub(counts.reader_waits)
        .saturating_sub(counts.spins)
        .saturating_sub(counts.stops)
}

fn tally_of(kind: Kind, turns: u64) -> Tally
    ensures { result ≡ spec.tally_of kind turns }
{
    Tally { kind, turns }
}

/// The one with more turns, or else the first.
fn more_of(one: Tally, other: Tally) -> Tally
    ensures { result ≡ spec.more_of one other }
{
    if one.turns < other.turns { other } else { one }
}
