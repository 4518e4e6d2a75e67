//! Copies of a node's state, and their comparison.
ghost use Rattle.std.specs.Prelude.{◌≡◌, true};
ghost use Rattle.ga_node.specs.Spins.{uncounted};
ghost use Rattle.ga_node.specs.inner.Again.{HasSameLists, HasSameMode, HasSameRegisters};

use crate::decoded::Decoded;
use crate::loader::Loader;
use crate::state::NodeState;
use ga_word::Word18;

impl NodeState {
    /// A copy of the node.
    pub fn copied(&self) -> Self
        ensures { result ≡ self.now }
    {
        NodeState {
            place: self.place,
            word: self.word,
            p: self.p,
            b: self.b,
            t: self.t,
            s: self.s,
            r: self.r,
            a: self.a,
            posted: self.posted,
            steps: self.steps,
            data_stack: self.data_stack.copied(),
            return_stack: self.return_stack.copied(),
            ram: self.ram,
            io: self.io,
            carry: self.carry,
            node: self.node,
            loader: self.loader.copied(),
            cache: self.cache,
        }
    }

    /// Whether two states are equal but for the numbers of steps.
    pub fn is_again(&self, other: &NodeState) -> bool
        ensures again { result ≡ true → self.now ≡ record other.now { steps = self.now.steps } }
        ensures all { uncounted self.now ≡ uncounted other.now → result ≡ true }
    {
        self.has_same_registers(other) && self.has_same_mode(other) && self.has_same_lists(other)
    }

    /// Whether all is equal that differs in most states.
    fn has_same_registers(&self, other: &NodeState) -> bool
        ensures same { result ≡ true → HasSameRegisters self.now other.now }
        ensures all { HasSameRegisters self.now other.now → result ≡ true }
    {
        self.p == other.p
            && self.place == other.place
            && self.t == other.t
            && self.s == other.s
            && self.r == other.r
            && self.a == other.a
            && self.b == other.b
    }

    /// Whether all is equal that stands apart.
    fn has_same_mode(&self, other: &NodeState) -> bool
        ensures same { result ≡ true → HasSameMode self.now other.now }
        ensures all { HasSameMode self.now other.now → result ≡ true }
    {
        self.io == other.io
            && self.carry == other.carry
            && self.node == other.node
            && self.posted == other.posted
            && self.word.word() == other.word.word()
    }

    /// Whether the stacks, the loader's fields and the memory are equal.
    fn has_same_lists(&self, other: &NodeState) -> bool
        ensures same { result ≡ true → HasSameLists self.now other.now }
        ensures all { HasSameLists self.now other.now → result ≡ true }
    {
        are_same(&self.data_stack.words(), &other.data_stack.words())
            && are_same(&self.return_stack.words(), &other.return_stack.words())
            && self.loader.is_same(&other.loader)
            && are_same(&self.ram, &other.ram)
    }
}

impl Loader {
    /// A copy of what the loader keeps.
    fn copied(&self) -> Self
        ensures { result ≡ self.now }
    {
        Loader {
            completion: self.completion,
            transfer: self.transfer,
            left: self.left,
            held: self.held,
        }
    }

    /// Whether two loaders keep the same.
    fn is_same(&self, other: &Loader) -> bool
        ensures same { result ≡ true → self.now ≡ other.now }
        ensures all { self.now ≡ other.now → result ≡ true }
    {
        self.completion == other.completion
            && self.transfer == other.transfer
            && self.left == other.left
            && self.held == other.held
    }
}

/// Whether words are the same.
fn are_same(words: &[Word18], others: &[Word18]) -> bool
    ensures same { result ≡ true → words.now ≡ others.now }
    ensures all { words.now ≡ others.now → result ≡ true }
{
    words == others
}
