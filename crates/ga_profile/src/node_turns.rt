//! What a node did in the turns of a window.
ghost use Rattle.std.specs.Prelude.{◌≡◌};
ghost use Rattle.ga_profile.specs.NodeTurns as spec;
ghost use Rattle.ga_profile.specs.NodeTurns.{NO_COUNTS, NO_TURNS};

use ga_node::Place;
use ga_observe::{Deed, Step};
use ga_place::{Where, locate};

/// In how many turns of a window a node did what. In all others it was idle. A count stays at
/// 2^64 - 1.
#[derive(Clone, Copy)]
pub struct TurnCounts {
    /// It moved before it began.
    pub boots: u64,
    /// It moved.
    pub works: u64,
    /// It waited for a word.
    pub word_waits: u64,
    /// It waited for its word to be read.
    pub reader_waits: u64,
    /// It moved, and spun: own steps alone lead back to where it was.
    pub spins: u64,
    /// It was stopped.
    pub stops: u64,
}

/// What a node did in a run.
#[derive(Clone, Copy)]
pub struct NodeTurns {
    /// The turn in which it first fetched a word of its memory.
    pub began: Option<u64>,
    /// The turn of its last step that isn't a spin.
    pub last: Option<u64>,
    /// In how many turns of the window it did what.
    pub counts: TurnCounts,
    /// How many words it took in the window since it began.
    pub taken: u64,
    /// How many words it posted in the window since it began.
    pub posted: u64,
}

/// What a node waits for.
#[derive(Clone, Copy)]
pub(crate) enum Wait {
    Word,
    Reader,
    /// Code, or a word of its stream: it is idle.
    Work,
    /// Nothing: it is stopped.
    Never,
}

/// What a step of a node is.
#[derive(Clone, Copy)]
pub(crate) enum Act {
    Boot,
    Work,
    Spin,
}

/// No turns yet.
pub(crate) fn no_turns() -> NodeTurns
    ensures { result ≡ NO_TURNS }
{
    NodeTurns {
        began: None,
        last: None,
        counts: no_counts(),
        taken: 0,
        posted: 0,
    }
}

fn no_counts() -> TurnCounts
    ensures { result ≡ NO_COUNTS }
{
    TurnCounts {
        boots: 0,
        works: 0,
        word_waits: 0,
        reader_waits: 0,
        spins: 0,
        stops: 0,
    }
}

/// The turns of a node up to a step, in a window from a turn on, by whether the node spins.
#[tactic(auto, unfolding(crate::specs::NodeTurns::after_step))]
pub(crate) fn after_step(from: u64, is_spinning: bool, old: &NodeTurns, step: &Step) -> NodeTurns
    ensures { result ≡ spec.after_step from is_spinning old.now step.now }
{
    let began = began_by(old.began, step);
    let counts = waited_for(from, old, step);
    let act = act_of(began.is_some(), is_spinning);
    NodeTurns {
        began,
        last: last_by(old.last, is_spinning, step.turn),
        counts: acted_if(&counts, act, from, step.turn),
        taken: words_after(old.taken, from, began, step.turn, has_taken(&step.deed)),
        posted: words_after(old.posted, from, began, step.turn, has_posted(&step.deed)),
    }
}

/// The counts after the turn of a step, if that is in a window from a turn on.
fn acted_if(counts: &TurnCounts, act: Act, from: u64, turn: u64) -> TurnCounts
    ensures { result ≡ spec.acted_if counts.now act from turn }
{
    if turn < from {
        *counts
    } else {
        acted(counts, act)
    }
}

/// When a node began, after a step.
fn began_by(began: Option<u64>, step: &Step) -> Option<u64>
    ensures { result ≡ spec.began_by began step.now }
{
    match began {
        Some(turn) => Some(turn),
        None if fetches_memory(step) => Some(step.turn),
        None => None,
    }
}

/// Whether a step fetches a word of memory.
fn fetches_memory(step: &Step) -> bool
    ensures { result ≡ spec.fetches_memory step.now }
{
    step.place == Place::Fetch && is_memory(step.p)
}

fn is_memory(address: u16) -> bool
    ensures { result ≡ spec.is_memory address }
{
    matches!(locate(address), Where::Ram(_))
}

/// What a step is, by whether its node has started and spins.
fn act_of(has_begun: bool, is_spinning: bool) -> Act
    ensures { result ≡ spec.act_of has_begun is_spinning }
{
    if is_spinning {
        Act::Spin
    } else if has_begun {
        Act::Work
    } else {
        Act::Boot
    }
}

/// The turn of the last step that isn't a spin.
fn last_by(last: Option<u64>, is_spinning: bool, turn: u64) -> Option<u64>
    ensures { result ≡ spec.last_by last is_spinning turn }
{
    if is_spinning { last } else { Some(turn) }
}

/// The counts with the turns in which a node waited for a step.
fn waited_for(from: u64, old: &NodeTurns, step: &Step) -> TurnCounts
    ensures { result ≡ spec.waited_for from old.now step.now }
{
    match old.began {
        Some(_) => {
            let turns = turns_between(from, old.last, step.turn);
            waited(&old.counts, wait_before(step.place, &step.deed), turns)
        }
        None => old.counts,
    }
}

/// How many turns from `from` on lie behind the last step and before a turn.
pub(crate) fn turns_between(from: u64, last: Option<u64>, turn: u64) -> u64
    ensures { result ≡ spec.turns_between from last turn }
{
    let in_window = turn.saturating_sub(from);
    match last {
        Some(last) => in_window.min(turn.saturating_sub(last).saturating_sub(1)),
        None => in_window,
    }
}

/// What a node waits for before a step.
fn wait_before(place: Place, deed: &Deed) -> Wait
    ensures { result ≡ spec.wait_before place deed.now }
{
    match deed {
        Deed::Took { .. } => wait_to_take(place),
        Deed::SawRead(_) => Wait::Reader,
        _ => Wait::Work,
    }
}

/// What a node waits for that takes a word at a place: before a fetch the word is code.
pub(crate) fn wait_to_take(place: Place) -> Wait
    ensures { result ≡ spec.wait_to_take place }
{
    match place {
        Place::Fetch => Wait::Work,
        _ => Wait::Word,
    }
}

/// The counts after turns of a wait.
pub(crate) fn waited(counts: &TurnCounts, wait: Wait, turns: u64) -> TurnCounts
    ensures { result ≡ spec.waited counts.now wait turns }
{
    let mut more = *counts;
    match wait {
        Wait::Word => more.word_waits = counts.word_waits.saturating_add(turns),
        Wait::Reader => more.reader_waits = counts.reader_waits.saturating_add(turns),
        Wait::Never => more.stops = counts.stops.saturating_add(turns),
        Wait::Work => {}
    }
    more
}

/// The counts after the turn of a step.
fn acted(counts: &TurnCounts, act: Act) -> TurnCounts
    ensures { result ≡ spec.acted counts.now act }
{
    let mut more = *counts;
    match act {
        Act::Boot => more.boots = counts.boots.saturating_add(1),
        Act::Work => more.works = counts.works.saturating_add(1),
        Act::Spin => more.spins = counts.spins.saturating_add(1),
    }
    more
}

fn has_taken(deed: &Deed) -> bool
    ensures { result ≡ spec.has_taken deed.now }
{
    match deed {
        Deed::Took { .. } => true,
        _ => false,
    }
}

fn has_posted(deed: &Deed) -> bool
    ensures { result ≡ spec.has_posted deed.now }
{
    match deed {
        Deed::Posted(_, _) => true,
        _ => false,
    }
}

/// A count of words after a step in a turn that may have one more.
fn words_after(count: u64, from: u64, began: Option<u64>, turn: u64, has_one: bool) -> u64
    ensures { result ≡ spec.words_after count from began turn has_one }
{
    if has_one && began.is_some() && turn >= from {
        count.saturating_add(1)
    } else {
        count
    }
}
