//! An observer of how often words are fetched and opcodes run.
ghost use Rattle.std.specs.Prelude.{◌≡◌, [], IfOk, None, length, replicate};
ghost use Rattle.ga_counts.specs.Counts.{NO_COUNTS};
ghost use Rattle.ga_counts.specs.inner.Kept.{Kept};

use crate::word_counts::{WordCounts, no_counts, one_more, place_counted, word_after};
use ga_observe::{Observer, Step};
use std::alloc::{AllocError, Global};

/// How many words all nodes have.
const WORDS: usize = 9216;

/// The counts of all words, and the word that each node has in execution.
#[derive(Drop)]
pub(crate) struct CountWatch {
    executed: Vec<Option<u8>>,
    pub(crate) words: Vec<WordCounts>,
    ghost nodes: { length executed.items ≡ 144 },
    ghost all: { length words.items ≡ 9216 },
}

impl CountWatch {
    /// No steps.
    pub(crate) fn new(alloc: Global) -> Result<Self, AllocError>
        ensures { IfOk result (λ watch. Kept watch.executed.items watch.words.items []) }
    {
        Ok(CountWatch {
            executed: unfetched(alloc)?,
            words: uncounted(alloc)?,
        })
    }
}

/// No word, for each node.
fn unfetched(alloc: Global) -> Result<Vec<Option<u8>>, AllocError>
    ensures { IfOk result (λ executed. executed.items ≡ replicate 144 None) }
{
    let executed = vec![in alloc; None; 144]?;
    Ok(executed)
}

/// No counts, for each word.
fn uncounted(alloc: Global) -> Result<Vec<WordCounts>, AllocError>
    ensures { IfOk result (λ words. words.items ≡ replicate 9216 NO_COUNTS) }
{
    let none = no_counts();
    let words = vec![in alloc; none; WORDS]?;
    Ok(words)
}

impl Observer for CountWatch {
    ghost use Rattle.ga_counts.specs.inner.Kept.{Kept};

    ghost has_seen = { λ begun watch steps. Kept watch.executed.items watch.words.items steps };

    fn see(&mut self, step: Step) {
        let index = step.node.index();
        let word = word_after(self.executed[index], &step);
        self.executed[index] = word;
        if let Some(place) = place_counted(step.node, word, &step.deed) {
            self.words[place] = one_more(&self.words[place], step.place);
        }
    }
}
