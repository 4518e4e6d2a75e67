ghost use Rattle.std.specs.Prelude.{◌≡◌, [], IfOk, drop, is_none, length, slice_get};

use ga_word::Word18;
use std::alloc::{AllocError, Global};
use std::marker::Model;

/// The words of a node's stream that it has not yet taken. A contract sees their list.
#[derive(Drop)]
pub(crate) struct Stream {
    // None until a piece has come, since an empty `Vec` needs an allocator.
    words: Option<Vec<Word18>>,
    taken: usize,
}

impl Model for Stream {
    ghost use Rattle.std.specs.Prelude.{ℕ, ◌≤◌, List, [], drop, length, vec_items};
    ghost use Rattle.std.specs.Option.{option_map_or};

    ghost Value = { List ℕ };

    ghost view = { λ stream. drop stream.taken (option_map_or vec_items stream.words []) };

    ghost invariant = { λ stream. stream.taken ≤ length (option_map_or vec_items stream.words []) };
}

impl Stream {
    /// A stream of these words.
    pub(crate) fn new(words: Vec<Word18>) -> Self
        ensures { result ≡ words.items }
    {
        Stream {
            words: Some(words),
            taken: 0,
        }
    }

    /// A stream to which no word has come yet.
    pub(crate) fn open() -> Self
        ensures { result ≡ [] }
    {
        Stream {
            words: None,
            taken: 0,
        }
    }

    /// A copy, without the words that were taken.
    pub(crate) fn copied(&self, alloc: Global) -> Result<Self, AllocError>
        ensures { IfOk result (λ copy. copy ≡ self.now) }
    {
        let Some(words) = &self.words else {
            return Ok(Stream::open());
        };
        let mut left = Vec::new(alloc);
        left.extend_from_slice(&words[self.taken..])?;
        Ok(Stream::new(left))
    }

    pub(crate) fn len(&self) -> usize
        ensures { result ≡ length self.now }
    {
        match &self.words {
            Some(words) => words.len() - self.taken,
            None => 0,
        }
    }

    pub(crate) fn is_empty(&self) -> bool
        ensures { result ≡ is_none (slice_get self.now 0) }
    {
        match &self.words {
            Some(words) => words.get(self.taken).is_none(),
            None => true,
        }
    }

    /// The next word, if one is left.
    pub(crate) fn peek(&self) -> Option<Word18>
        ensures { result ≡ slice_get self.now 0 }
    {
        match &self.words {
            Some(words) => words.get(self.taken).copied(),
            None => None,
        }
    }

    /// Takes the next word, if one is left.
    pub(crate) fn next(&mut self) -> Option<Word18>
        ensures word { result ≡ slice_get self.old 0 }
        ensures rest { self.new ≡ drop 1 self.old }
    {
        let words = self.words.as_ref()?;
        let word = words.get(self.taken).copied()?;
        self.taken += 1;
        Some(word)
    }
}
