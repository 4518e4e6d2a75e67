ghost use Rattle.std.specs.Prelude.{[], ◌≡◌, ◌≢◌, ◌↔◌, ℕ, ◌+◌, ◌<◌, ◌≤◌, ◌^◌, Err, IfOk, false, length, true};
ghost use Rattle.ga_place.specs.Cell.{name_at};
ghost use Rattle.ga_chip.specs.Chip.{IsHeld, answer_of, placed, refusal, reset_chip, state_of, stream_opened, stream_refusal, streamed, tried, unless_held, unless_refused, with_words};
ghost use Rattle.ga_place.specs.declared.side.Side.{Side};
ghost use Rattle.ga_chip.specs.Ledger.{ledger_of};
ghost use Rattle.ga_chip.specs.declared.error.ChipError.TheVariants.{NotHeld};
ghost use Rattle.ga_chip.specs.declared.outcome.Outcome.TheVariants.{Held, Moved};
ghost use Rattle.ga_chip.specs.Grow.{LedgersGrow};
ghost use Rattle.ga_chip.specs.Legal.{IsLegal};
ghost use Rattle.ga_chip.specs.Stream.{feed_refusal, left_of, next_input};
ghost use Rattle.ga_chip.specs.Stuck.{HoldsEachClosed, IsClosed, has_node};
ghost use Rattle.ga_chip.specs.Run.{ClearBreak, PassBreak, Piece, SetBreak, happened, has_break, moves, ran, stands_held, tries_of, turn_of, turns_of};
ghost use Rattle.ga_chip.specs.Outcome.{moved_by};

mod ahead;

use crate::chip::ahead::{Pace, block_end};
use crate::error::ChipError;
use crate::ledger::Ledger;
use crate::node_set::NodeSet;
use crate::outcome::{Outcome, Try};
use crate::part::NodePart;
use crate::row::CellRow;
use crate::stuck::{StuckNodes, stuck_nodes};
use ga_node::NodeState;
use ga_place::{Node, Side, cell, neighbour};
use ga_word::Word18;
use std::alloc::{AllocError, Global};
use std::marker::Model;

/// The chip: 144 nodes, and the 524 one-way cells over which they pass words.
#[derive(Drop)]
pub struct Chip {
    parts: Vec<NodePart>,
    cells: CellRow,
    // The nodes that may move. All others sleep, and a turn leaves them out.
    awake: NodeSet,
}

impl Model for Chip {
    ghost use Rattle.std.specs.Prelude.{vec_items};
    ghost use Rattle.ga_chip.specs.Chip as chip;
    ghost use Rattle.ga_chip.specs.inner.Awake.{Knows};

    ghost Value = { chip.Chip };

    ghost view = { λ c. record { parts = vec_items c.parts; cells = c.cells } };

    ghost invariant = { λ c. Knows (record { parts = vec_items c.parts; cells = c.cells })
        c.awake };
}

impl Chip {
    /// The chip after reset: each node as by `NodeState::reset`, and nothing pending. Fails only
    /// when out of memory. Of the other calls only `copied` allocates.
    pub fn reset(alloc: Global) -> Result<Self, AllocError>
        ensures { IfOk result (λ chip. chip ≡ reset_chip) }
    {
        let mut parts = Vec::with_capacity(alloc, 144)?;
        let first = NodePart::reset(0);
        for index in 0..144 {
            parts.push(first.reset_as(index))?;
        }
        let cells = Vec::from_array(alloc, [None; 524])?;
        Ok(Chip {
            parts,
            cells: CellRow::new(cells),
            awake: NodeSet::all(),
        })
    }

    /// A copy of the chip, whose tries are its own. Fails only when out of memory.
    pub fn copied(&self, alloc: Global) -> Result<Self, AllocError>
        ensures { IfOk result (λ copy. copy ≡ self.now) }
    {
        let parts = copied_parts(alloc, &self.parts)?;
        let cells = self.cells.copied(alloc)?;
        Ok(Chip {
            parts,
            cells,
            awake: self.awake,
        })
    }

    /// The chip of these parts, in order of name, and these cells: a chip that was taken apart, or
    /// the one that its parts and cells have become by tries. It keeps both lists, and allocates
    /// nothing.
    pub fn from_parts(parts: Vec<NodePart>, cells: CellRow) -> Self
        requires { IsLegal (record { parts = parts.items; cells = cells }) }
        ensures { result ≡ record { parts = parts.items; cells = cells } }
    {
        Chip {
            parts,
            cells,
            awake: NodeSet::all(),
        }
    }

    /// Takes the chip apart: the parts of its nodes in order of name, and its cells. Both lists are
    /// the chip's own, so nothing is allocated.
    pub fn into_parts(self) -> (Vec<NodePart>, CellRow)
        ensures parts { result.0.items ≡ self.parts }
        ensures cells { result.1 ≡ self.cells }
        ensures legal { IsLegal (record { parts = result.0.items; cells = result.1 }) }
    {
        let Chip { parts, cells, .. } = self;
        (parts, cells)
    }

    /// The word pending in each cell.
    pub fn cells(&self) -> &CellRow
        ensures { result.now ≡ self.now.cells }
    {
        &self.cells
    }

    /// Gives a node a stream: it is then as by `NodeState::booting`, and loads itself from these
    /// words. A node that isn't at an edge is refused as `NotEdge`, one that has a stream as
    /// `AlreadyGiven`, and one that has made a step as `Begun`. The chip is then left as it was,
    /// and the words come back. (Streams are this project's own: profile.)
    pub fn give_stream(
        &mut self,
        node: Node,
        words: Vec<Word18>,
    ) -> Result<(), (ChipError, Vec<Word18>)>
        ensures refused { result ≡ with_words words (stream_refusal self.old node) }
        ensures chip { self.new ≡ unless_refused (stream_refusal self.old node)
            (streamed self.old node words.items) self.old }
    {
        if !node.is_edge() {
            return Err((ChipError::NotEdge, words));
        }
        let index = node.index();
        let part = &mut self.parts[index];
        if let Some(fault) = part.refusal() {
            return Err((fault, words));
        }
        part.give_stream(words);
        self.awake.insert(index);
        Ok(())
    }

    /// Opens a node's stream: the node is then as by `NodeState::booting`, and loads itself from
    /// words that `feed` brings. The nodes that `give_stream` refuses are refused, and the chip is
    /// then left as it was. It allocates nothing. (Streams in pieces are this project's own:
    /// profile.)
    pub fn open_stream(&mut self, node: Node) -> Result<(), ChipError>
        ensures refused { result ≡ answer_of (stream_refusal self.old node) }
        ensures chip { self.new ≡ unless_refused (stream_refusal self.old node)
            (stream_opened self.old node) self.old }
    {
        if !node.is_edge() {
            return Err(ChipError::NotEdge);
        }
        let index = node.index();
        let part = &mut self.parts[index];
        if let Some(fault) = part.refusal() {
            return Err(fault);
        }
        part.open_stream();
        self.awake.insert(index);
        Ok(())
    }

    /// Feeds a piece to a node's stream: the node takes its words when it gets to them. A node
    /// whose stream wasn't opened by `open_stream` is refused as `NotOpen`, and one that has not
    /// taken all words of the last piece as `NotTaken`, whatever the new piece holds; the chip is
    /// then left as it was, and the words come back. An empty piece changes nothing. It allocates
    /// nothing. (Profile.)
    pub fn feed(&mut self, node: Node, words: Vec<Word18>) -> Result<(), (ChipError, Vec<Word18>)>
        ensures refused { result ≡ with_words words (feed_refusal self.old node) }
        ensures chip { self.new ≡ unless_refused (feed_refusal self.old node)
            (happened self.old (Piece node words.items)) self.old }
        ensures empty { words.items ≡ [] → self.new ≡ self.old }
    {
        let index = node.index();
        let part = &mut self.parts[index];
        if let Some(fault) = part.feed_refusal() {
            return Err((fault, words));
        }
        part.feed(words);
        self.awake.insert(index);
        Ok(())
    }

    /// How many words of its stream a node has not yet taken; 0 without a stream.
    pub fn stream_left(&self, node: Node) -> usize
        ensures { result ≡ left_of self.now node }
    {
        self.parts[node.index()].stream_left()
    }

    /// The next word of a node's stream, if one is left.
    pub fn next_input(&self, node: Node) -> Option<Word18>
        ensures { result ≡ next_input self.now node }
    {
        self.parts[node.index()].next_input()
    }

    /// Gives a node words, at most 64, and an entry, an address of ten bits: it is then as by
    /// `NodeState::loaded`, so that a second call starts it anew. A node that has a stream is
    /// refused as `AlreadyGiven`, and one that has made a step as `Begun`; the chip is then left as
    /// it was.
    pub fn place(&mut self, node: Node, words: &[Word18], entry: u16) -> Result<(), ChipError>
        requires words { length words.now ≤ 64 }
        requires entry { entry < 2 ^ 10 }
        ensures refused { result ≡ answer_of (refusal self.old node) }
        ensures chip { self.new ≡ unless_refused (refusal self.old node)
            (placed self.old node words.now entry) self.old }
    {
        let index = node.index();
        let part = &mut self.parts[index];
        if let Some(fault) = part.refusal() {
            return Err(fault);
        }
        part.give(words, entry);
        self.awake.insert(index);
        Ok(())
    }

    /// Makes an address of nine bits a breakpoint of a node: a fetch is held if the low nine bits
    /// of P are this address and the node has no pass. A pass that it has stays. (Breakpoints are
    /// this project's own: profile.)
    pub fn set_break(&mut self, node: Node, address: u16)
        requires { address < 2 ^ 9 }
        ensures { self.new ≡ happened self.old (SetBreak node address) }
    {
        self.parts[node.index()].set_break(address);
    }

    /// Makes an address of nine bits no breakpoint of a node any more. A pass that the node has
    /// stays.
    pub fn clear_break(&mut self, node: Node, address: u16)
        requires { address < 2 ^ 9 }
        ensures { self.new ≡ happened self.old (ClearBreak node address) }
    {
        let index = node.index();
        self.parts[index].clear_break(address);
        self.awake.insert(index);
    }

    /// Gives a node that is held at a breakpoint a pass: its next fetch goes on, and ends the pass.
    /// A node whose try wouldn't be `Held` is refused as `NotHeld`, for example one that has a
    /// pass; the chip is then left as it was.
    pub fn pass_break(&mut self, node: Node) -> Result<(), ChipError>
        ensures refused { (side : Side)
            → result ≡ answer_of (unless_held (tried self.old node side).0) }
        ensures chip { self.new ≡ happened self.old (PassBreak node) }
        ensures same { result ≡ Err NotHeld → self.new ≡ self.old }
    {
        let index = node.index();
        if !self.parts[index].pass_break() {
            return Err(ChipError::NotHeld);
        }
        self.awake.insert(index);
        Ok(())
    }

    /// Whether an address of nine bits is a breakpoint of a node. (Profile.)
    pub fn has_break(&self, node: Node, address: u16) -> bool
        requires { address < 2 ^ 9 }
        ensures { result ≡ has_break self.now node address }
    {
        self.parts[node.index()].has_break(address)
    }

    /// Whether a node is held at a breakpoint: a try of it would be `Held`, whatever side it names.
    /// (Profile.)
    pub fn is_held(&self, node: Node) -> bool
        ensures { result ≡ stands_held self.now node }
    {
        self.parts[node.index()].stands_at_break()
    }

    /// Whether a node is known to sleep: a try of it moves it at no side, and so changes nothing.
    /// `false` if it was not tried since it could move.
    #[inline]
    pub fn is_asleep(&self, node: Node) -> bool
        ensures { (side : Side) → result ≡ true → (tried self.now node side).0 ≢ Moved }
    {
        self.sleeps_at(node.index())
    }

    /// One try of one node. A node that has stopped is `Stopped`; else one that is about to fetch
    /// at a breakpoint, without a pass, is `Held`; else it goes by the node's need. Only a `Moved`
    /// try changes anything, and it adds one to the node's steps.
    #[inline(always)]
    pub fn attempt(&mut self, what: Try) -> Outcome
        ensures chip { (result, self.new) ≡ tried self.old what.node what.side }
        ensures held { result ≡ Held ↔ IsHeld self.old what.node }
        ensures unchanged { result ≢ Moved → self.new ≡ self.old }
    {
        self.attempt_at(what.node.index(), what.side)
    }

    /// One try of one node, as [`Chip::attempt`] makes it. Answers how many steps it made: 1 if it
    /// was `Moved`, and else 0. It is faster than `attempt` if the node stands still.
    #[inline(always)]
    pub fn attempt_step(&mut self, what: Try) -> u8
        ensures chip { self.new ≡ (tried self.old what.node what.side).1 }
        ensures moved { result ≡ moved_by (tried self.old what.node what.side).0 }
    {
        self.step_at(what.node.index(), what.side)
    }

    /// Tries in order.
    pub fn run(&mut self, tries: &[Try])
        ensures chip { self.new ≡ ran self.old (tries_of tries.now) }
        ensures ledgers { LedgersGrow self.old self.new (tries_of tries.now) }
    {
        // Reading a field gives the proof the type's invariant.
        let _ = &self.parts;
        for what in tries {
            let _outcome = self.attempt(*what);
        }
    }

    /// One try of each node in order of name, all with one side. Answers how many were `Moved`.
    #[inline]
    pub fn turn(&mut self, side: Side) -> u8
        ensures chip { self.new ≡ ran self.old (turn_of side) }
        ensures moved { result ≡ length (moves self.old (turn_of side)) }
        ensures ledgers { LedgersGrow self.old self.new (turn_of side) }
    {
        if self.awake.is_crowded() {
            self.turn_of_all(side)
        } else {
            self.turn_of_awake(side)
        }
    }

    /// Makes `count` turns, with the sides right, down, left, up, and again. Answers how many tries
    /// were `Moved` in all. Turns that would change nothing, since no node can move, are left out.
    pub fn turns(&mut self, count: u32) -> u64
        ensures chip { self.new ≡ ran self.old (turns_of count) }
        ensures moved { result ≡ length (moves self.old (turns_of count)) }
        ensures ledgers { LedgersGrow self.old self.new (turns_of count) }
    {
        self.legal();
        let count = u64::from(count);
        let mut pace = Pace::new();
        let mut turn = 0;
        let mut moved = 0;
        while turn < count {
            let end = block_end(turn, count);
            let made = self.make_block(&mut pace, turn, end);
            moved += made;
            turn = end;
            if made == 0 && self.is_still() {
                return moved;
            }
        }
        moved
    }

    /// Each chip is legal: the numbers of its cells agree with what is pending in them. This call
    /// does nothing; a proof gets the fact from it, as a premise of the laws.
    pub fn legal(&self)
        ensures { IsLegal self.now }
    {
        // Reading a field gives the proof the type's invariant.
        let _ = &self.parts;
    }

    /// The nodes that are stuck: the largest closed set of nodes, as `laws::stuck` defines it. No
    /// tries in any order move one of them, wherever breakpoints are used and whatever the streams
    /// of other nodes are fed. A node that is held at a breakpoint is stuck only if it would be
    /// without it. The call allocates nothing. (It is this project's own: profile.)
    pub fn stuck(&self) -> StuckNodes
        ensures closed { IsClosed self.now (has_node result) }
        ensures largest { HoldsEachClosed self.now (has_node result) }
    {
        stuck_nodes(&self.parts, &self.cells)
    }

    /// A node's state.
    pub fn state(&self, node: Node) -> &NodeState
        ensures { Some result.now ≡ state_of self.now node }
    {
        self.parts[node.index()].state()
    }

    /// The numbers of the cell that a node writes at a side: how many words were written and read,
    /// and how many are pending. All are 0 if the node has no neighbour there.
    pub fn ledger(&self, node: Node, side: Side) -> Ledger
        ensures numbers { result ≡ ledger_of self.now node side }
        ensures balanced { result.written ≡ result.read + result.pending }
    {
        let (Some(other), Some(at)) = (neighbour(node, side), cell(node, side)) else {
            return Ledger {
                written: 0,
                read: 0,
                pending: 0,
            };
        };
        Ledger {
            written: self.parts[node.index()].written(side),
            read: self.parts[other.index()].read(side),
            pending: u8::from(self.cells.pending(at).is_some()),
        }
    }

    /// Whether it is known that no node can move: a turn then changes nothing, whatever its side.
    /// `false` if some node was not tried since it could move.
    #[inline]
    fn is_still(&self) -> bool
        ensures chip { (side : Side) → result ≡ true → ran self.now (turn_of side) ≡ self.now }
        ensures moves { (side : Side) → result ≡ true → length (moves self.now (turn_of side)) ≡ 0 }
    {
        self.next_awake(0) >= 144
    }

    /// A turn that tries each node. As long as few of them sleep, that is faster than to go from
    /// one awake node to the next.
    #[inline(never)]
    fn turn_of_all(&mut self, side: Side) -> u8
        ensures chip { self.new ≡ ran self.old (turn_of side) }
        ensures moved { result ≡ length (moves self.old (turn_of side)) }
    {
        // Reading a field gives the proof the type's invariant.
        let _ = &self.parts;
        let mut moved = 0;
        for index in 0..144 {
            moved += self.attempt_at(index, side).moves();
        }
        moved
    }

    /// A turn that leaves out the nodes that sleep.
    #[inline(always)]
    fn turn_of_awake(&mut self, side: Side) -> u8
        ensures chip { self.new ≡ ran self.old (turn_of side) }
        ensures moved { result ≡ length (moves self.old (turn_of side)) }
    {
        let mut moved = 0;
        let mut index = self.next_awake(0);
        while index < 144 {
            moved += self.attempt_at(index, side).moves();
            index = self.next_awake(index + 1);
        }
        moved
    }

    /// One try of the node at an index in order of name.
    #[inline(always)]
    fn attempt_at(&mut self, index: usize, side: Side) -> Outcome
        requires { index < 144 }
        ensures { (result, self.new) ≡ tried self.old (name_at index) side }
    {
        if self.try_own_at(index) {
            return Outcome::Moved;
        }
        self.attempt_far(index, side)
    }

    /// The same, of which only the number of steps is asked: a node that sleeps isn't looked at.
    #[inline(always)]
    fn step_at(&mut self, index: usize, side: Side) -> u8
        requires { index < 144 }
        ensures chip { self.new ≡ (tried self.old (name_at index) side).1 }
        ensures moved { result ≡ moved_by (tried self.old (name_at index) side).0 }
    {
        if self.try_own_at(index) {
            return 1;
        }
        if self.sleeps_at(index) {
            return 0;
        }
        self.attempt_far(index, side).moves()
    }

    /// Whether the node at an index in order of name sleeps: its tries change nothing.
    #[inline(always)]
    fn sleeps_at(&self, index: usize) -> bool
        requires { index < 144 }
        ensures { (side : Side) → result ≡ true → (tried self.now (name_at index) side).0 ≢ Moved }
    {
        !self.awake.contains(index)
    }

    /// A step on the fast path of the node at an index in order of name, if it is the node's own
    /// work, else nothing. Answers whether the node made it.
    #[inline(always)]
    fn try_own_at(&mut self, index: usize) -> bool
        requires { index < 144 }
        ensures moved { result ≡ true → (side : Side)
            → (Moved, self.new) ≡ tried self.old (name_at index) side }
        ensures same { result ≡ false → self.new ≡ self.old }
    {
        // Written as two returns, since the proof distinguishes them.
        if self.parts[index].try_own() {
            return true;
        }
        false
    }

    /// One try of the node at an index in order of name, by all that it may need. (Cold, so that in
    /// a turn one node's own work follows another's without a jump.)
    #[cold]
    #[inline(never)]
    fn attempt_far(&mut self, index: usize, side: Side) -> Outcome
        requires { index < 144 }
        ensures { (result, self.new) ≡ tried self.old (name_at index) side }
    {
        let far = self.parts[index].attempt_far(&mut self.cells, side);
        if far.sleeps {
            self.awake.remove(index);
            return far.outcome;
        }
        if let Some(other) = far.wakes {
            self.awake.insert(other);
        }
        far.outcome
    }

    /// The index of the first awake node from an index on, or more than 143 if there is none.
    #[inline(always)]
    fn next_awake(&self, from: usize) -> usize
        requires { from ≤ 144 }
        ensures on { from ≤ result }
        ensures asleep { (index : ℕ) (side : Side) → from ≤ index → index < result → index < 144
            → (tried self.now (name_at index) side).0 ≢ Moved }
    {
        self.awake.next(from)
    }
}

/// Copies of parts.
fn copied_parts(alloc: Global, parts: &[NodePart]) -> Result<Vec<NodePart>, AllocError>
    ensures { IfOk result (λ copies. copies.items ≡ parts.now) }
{
    let mut copies = Vec::with_capacity(alloc, parts.len())?;
    for part in parts {
        copies.push(part.copied(alloc)?)?;
    }
    Ok(copies)
}
