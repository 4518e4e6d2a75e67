ghost use Rattle.std.specs.Prelude.{◌≡◌, IfOk, None, Some, length, set};
ghost use Rattle.ga_chip.specs.Chip.{pending_in};

use ga_place::CellId;
use ga_word::Word18;
use std::alloc::{AllocError, Global};
use std::marker::Model;

/// The word pending in each of the 524 cells. A contract sees their list, in the order of the
/// cells' numbers.
#[derive(Drop)]
pub struct CellRow {
    words: Vec<Option<Word18>>,
}

impl Model for CellRow {
    ghost use Rattle.std.specs.Prelude.{◌≡◌, ℕ, List, Option, length, vec_items};

    ghost Value = { List (Option ℕ) };

    ghost view = { λ row. vec_items row.words };

    ghost invariant = { λ row. length (vec_items row.words) ≡ 524 };
}

impl CellRow {
    /// The row of these words, one or none for each cell. It keeps the list that it is given, and
    /// allocates nothing.
    pub fn new(words: Vec<Option<Word18>>) -> Self
        requires { length words.items ≡ 524 }
        ensures { result ≡ words.items }
    {
        CellRow { words }
    }

    /// A copy of the row. Fails only when out of memory.
    pub(crate) fn copied(&self, alloc: Global) -> Result<Self, AllocError>
        ensures { IfOk result (λ copy. copy ≡ self.now) }
    {
        let mut words = Vec::new(alloc);
        words.extend_from_slice(&self.words)?;
        Ok(CellRow { words })
    }

    /// The list of the words, which is the one that the row was made of.
    pub fn into_words(self) -> Vec<Option<Word18>>
        ensures words { result.items ≡ self }
        ensures count { length result.items ≡ 524 }
    {
        let CellRow { words } = self;
        words
    }

    /// The words in the order of the cells' numbers.
    pub fn words(&self) -> &[Option<Word18>]
        ensures words { result.now ≡ self.now }
        ensures count { length result.now ≡ 524 }
    {
        &self.words
    }

    /// The word pending in a cell, if one is.
    #[inline(always)]
    pub fn pending(&self, cell: CellId) -> Option<Word18>
        ensures { result ≡ pending_in self.now cell }
    {
        self.words[cell.index()]
    }

    #[inline(always)]
    pub(crate) fn post(&mut self, cell: CellId, word: Word18)
        ensures { self.new ≡ set self.old cell (Some word) }
    {
        self.words[cell.index()] = Some(word);
    }

    /// Takes the word pending in a cell, if one is, and leaves the cell empty.
    #[inline(always)]
    pub(crate) fn take(&mut self, cell: CellId) -> Option<Word18>
        ensures word { result ≡ pending_in self.old cell }
        ensures row { self.new ≡ set self.old cell None }
    {
        self.words[cell.index()].take()
    }
}
