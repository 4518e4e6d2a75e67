//! The counts of a run.
ghost use Rattle.std.specs.Prelude.{◌≡◌, IfOk, length};
ghost use Rattle.ga_counts.specs.Counts.{counts_of, word_counts};

use crate::count_watch::CountWatch;
use crate::word_counts::{WordCounts, place_of};
use ga_chip::Chip;
use ga_place::Node;
use std::alloc::{AllocError, Global};

/// How often each word of each node's memory was fetched, and each slot's opcode run.
#[derive(Drop)]
pub struct Counts {
    /// 64 for each node, in order of name.
    pub words: Vec<WordCounts>,
    ghost all: { length words.items ≡ 9216 },
}

impl Counts {
    /// The counts of a word of a node. Addresses from 64 on are the words from 0 on again.
    pub fn word(&self, node: Node, address: usize) -> WordCounts
        ensures { result ≡ word_counts self.now.words.items node address }
    {
        self.words[place_of(node, address)]
    }
}

/// How often each word is fetched, and each slot's opcode run, in a number of turns of a copy of a
/// chip. The chip itself makes no turn. Fails only when out of memory.
pub fn count(alloc: Global, chip: &Chip, turns: u32) -> Result<Counts, AllocError>
    ensures { IfOk result (λ counts. counts.words.items ≡ counts_of turns chip.now) }
{
    let mut copy = chip.copied(alloc)?;
    let mut watch = CountWatch::new(alloc)?;
    let _moved = ga_observe::turns(&mut copy, &mut watch, turns);
    Ok(Counts { words: watch.words })
}
