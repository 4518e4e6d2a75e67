ghost use Rattle.std.specs.Prelude.{◌≡◌, None};
ghost use Rattle.ga_node.specs.Slot.{jumped};
ghost use Rattle.ga_node.specs.State.{consume_s, go_on, pop_data, pop_return, push_data, push_return, to_fetch};

use crate::place::Place;
use crate::state::NodeState;
use ga_word::Word18;

/// The moves of which the opcodes are made.
impl NodeState {
    /// Pushes a word on the data stack.
    #[inline(always)]
    pub(crate) fn push(&mut self, word: Word18)
        ensures { self.new ≡ push_data word self.old }
    {
        self.data_stack.push(self.s);
        self.s = self.t;
        self.t = word;
    }

    /// Sets T, and S to the first item of the data stack.
    #[inline(always)]
    pub(crate) fn consume(&mut self, word: Word18)
        ensures { self.new ≡ consume_s word self.old }
    {
        self.t = word;
        self.s = self.data_stack.pop();
    }

    /// Pops T from the data stack.
    #[inline(always)]
    pub(crate) fn pop(&mut self)
        ensures { self.new ≡ pop_data self.old }
    {
        self.consume(self.s);
    }

    /// Pushes a word on the return stack.
    #[inline(always)]
    pub(crate) fn push_return(&mut self, word: Word18)
        ensures { self.new ≡ push_return word self.old }
    {
        self.return_stack.push(self.r);
        self.r = word;
    }

    /// Pops R from the return stack.
    #[inline(always)]
    pub(crate) fn pop_return(&mut self)
        ensures { self.new ≡ pop_return self.old }
    {
        self.r = self.return_stack.pop();
    }

    /// Sets P by the destination in the word in execution, and goes on to the next fetch.
    #[inline(always)]
    pub(crate) fn jump(&mut self)
        requires { self.old.posted ≡ None }
        ensures { self.new ≡ to_fetch (jumped self.old) }
    {
        let dest = self.dest();
        self.p = match self.place {
            Place::Slot0 => dest,
            Place::Slot1 => self.p / 0x100 * 0x100 + dest % 0x100,
            Place::Slot2 => self.p / 8 * 8 + dest % 8,
            _ => self.p,
        };
        self.place = Place::Fetch;
    }

    /// Goes on to the next slot, or behind slot 3 to the next fetch.
    #[inline(always)]
    pub(crate) fn go_on(&mut self)
        requires { self.old.posted ≡ None }
        ensures { self.new ≡ go_on self.old }
    {
        self.place = match self.place {
            Place::Slot0 => Place::Slot1,
            Place::Slot1 => Place::Slot2,
            Place::Slot2 => Place::Slot3,
            Place::Slot3 => Place::Fetch,
            other => other,
        };
    }
}
