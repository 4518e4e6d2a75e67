ghost use Rattle.std.specs.Prelude.{◌≡◌, ℕ, ◌<◌, ◌∷◌, take, drop, slice_index, replicate, List, ◌++◌};
ghost use Rattle.ga_node.specs.State.{rotated};

use ga_word::Word18;
use std::marker::Model;

/// The eight words of a stack below its registers, as a ring. A contract sees their list, the first
/// item first.
#[derive(Drop)]
pub struct Stack {
    words: [Word18; 8],
    first: u8,
}

impl Model for Stack {
    ghost Value = { List ℕ };

    ghost view = { λ stack. drop stack.first stack.words ++ take stack.first stack.words };

    ghost invariant = { λ stack. stack.first < 8 };
}

impl Stack {
    /// Eight zeros.
    pub fn new() -> Self
        ensures { result ≡ replicate 8 0 }
    {
        Stack {
            words: [Word18::default(); 8],
            first: 0,
        }
    }

    /// A copy of the stack.
    pub fn copied(&self) -> Self
        ensures { result ≡ self.now }
    {
        Stack {
            words: self.words,
            first: self.first,
        }
    }

    /// Puts a word at the front. The last one is lost.
    #[inline(always)]
    pub fn push(&mut self, word: Word18)
        ensures { self.new ≡ word ∷ take 7 self.old }
    {
        self.first = (self.first + 7) % 8;
        self.words[usize::from(self.first)] = word;
    }

    /// The first word, which moves to the end.
    #[inline(always)]
    pub fn pop(&mut self) -> Word18
        ensures first { result ≡ slice_index self.old 0 }
        ensures rest { self.new ≡ rotated self.old }
    {
        let word = self.words[usize::from(self.first)];
        self.first = (self.first + 1) % 8;
        word
    }

    /// The eight words, the first item first.
    pub fn words(&self) -> [Word18; 8]
        ensures { result ≡ self.now }
    {
        let mut words = self.words;
        words.rotate_left(usize::from(self.first));
        words
    }
}
