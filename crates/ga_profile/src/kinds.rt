//! Kinds of steps: by node, or by the word in execution.
ghost use Rattle.std.specs.Prelude.{◌≡◌, ◌<◌};
ghost use Rattle.ga_profile.specs.Kinds as spec;

use crate::passes::word_at;
use ga_observe::Step;
use ga_trace::at_word;

/// What kinds of steps there are.
#[derive(Clone, Copy)]
pub(crate) enum Kinds {
    /// One for each node.
    Nodes,
    /// 65 for each node of the ranks 0 to 9, by the ranks of all nodes: one for each word of its
    /// memory, and one for all other code.
    Lines([usize; 144]),
}

/// The kind of a step.
pub(crate) fn kind_of(kinds: &Kinds, step: &Step) -> usize
    ensures value { result ≡ spec.kind_of kinds.now step.now }
    ensures bound { result < 715 }
{
    let index = step.node.index();
    match kinds {
        Kinds::Nodes => index,
        Kinds::Lines(ranks) => ranks[index].min(10) * 65 + word_kind(step),
    }
}

/// The word of memory that a step stands at, or 64 if it is at none.
fn word_kind(step: &Step) -> usize
    ensures value { result ≡ spec.word_kind step.now }
    ensures bound { result < 65 }
{
    match word_at(at_word(step.place, step.p % 0x400, step.word)) {
        Some(word) => word,
        None => 64,
    }
}
