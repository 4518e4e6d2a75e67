ghost use Rattle.std.specs.Prelude.{◌≡◌, ◌≢◌, ℕ, ◌<◌, ◌^◌, false, true, get_or, if◌then◌else◌, IfOk, IfSome, None, Some, Option, option_map};
ghost use Rattle.ga_place.specs.Cell.{cell_of, index_of, name_at, read_cell};
ghost use Rattle.ga_place.specs.Side.{is_among, neighbour_of, one_side};
ghost use Rattle.ga_place.specs.declared.side.Side.{Side};
ghost use Rattle.ga_node.specs.Need.{is_check, need_of, takes_at};
ghost use Rattle.ga_node.specs.State.{is_fetch, reset_state};
ghost use Rattle.ga_node.specs.declared.need.Need.TheVariants as need;
ghost use Rattle.ga_chip.specs.Part.{Check, Nothing, Own, Post, Take, after, after_asked, asks, asks_by, at_cell, count_at, input_of, looked_at, stepped, take_from};
ghost use Rattle.ga_chip.specs.Asks.{told_as};
ghost use Rattle.ga_chip.specs.Chip.{cells_after, found_by, reset_part};
ghost use Rattle.ga_chip.specs.inner.Awake.{partner_of};
ghost use Rattle.ga_chip.specs.Run.{break_cleared, break_passed, break_set, is_hold};
ghost use Rattle.ga_chip.specs.declared.outcome.Outcome.{Outcome};
ghost use Rattle.ga_chip.specs.declared.outcome.Outcome.TheVariants.{Held, Moved, Waits};

mod ahead;
mod by_hand;
mod streams;

use crate::asks::Asks;
use crate::counts::Counts;
use crate::outcome::Outcome;
use crate::port::{Port, Ports};
use crate::row::CellRow;
use crate::stream::Stream;
use crate::watch::Watch;
use ga_node::{Need, NodeState};
use ga_place::{CellId, Node, Side, Sides};
use ga_word::Word18;
use std::alloc::{AllocError, Global};
use std::marker::Model;

/// What the chip has of one node: its breakpoints and a pass, its state, how many words it has
/// written and read at each side, and its stream, if it was given one.
///
/// A try of the node can be made by hand, over cells that are kept elsewhere: `asks` returns what
/// the try asks for, and when that was done, one of the calls `done_own`, `done_post`, `done_take`
/// and `done_check` makes the try's change to the node. A contract sees a node's part as the record
/// `Part`.
#[derive(Drop)]
pub struct NodePart {
    watch: Watch,
    state: NodeState,
    written: Counts,
    read: Counts,
    stream: Option<Stream>,
    opened: bool,
    // So that they aren't computed at each step.
    ports: Ports,
}

/// The result of a try that took the slow path.
#[derive(Clone, Copy)]
pub(crate) struct Far {
    pub outcome: Outcome,
    /// The place in order of name of the neighbour that may move now, since the node took its word
    /// or posted one to it.
    pub wakes: Option<usize>,
    /// Whether a try would move at no side.
    pub sleeps: bool,
}

/// The outcome of a try that meets a need, and if it moved, the place in order of name of the
/// neighbour whose word it took, or to which it posted one.
#[derive(Clone, Copy)]
struct Met {
    outcome: Outcome,
    wakes: Option<usize>,
}

impl Model for NodePart {
    ghost use Rattle.std.specs.Prelude.{◌≡◌, is_some, true};
    ghost use Rattle.ga_chip.specs.Part.{Part};
    ghost use Rattle.ga_chip.specs.inner.Port.{FitsPorts};
    ghost use Rattle.ga_chip.specs.inner.Within.{StepsBound};

    ghost Value = { Part };

    ghost view = { λ part. record {
      state = part.state;
      breaks = part.watch.breaks;
      pass = part.watch.pass;
      stream = part.stream;
      opened = part.opened;
      written = part.written;
      read = part.read;
    } };

    ghost invariant = { λ part. StepsBound part.state.steps part.written part.read
        × FitsPorts part.state.node part.ports
        × (part.opened ≡ true → is_some part.stream ≡ true) };
}

impl NodePart {
    /// The node at an index in order of name, after reset.
    pub(crate) fn reset(index: usize) -> Self
        requires { index < 144 }
        ensures { result ≡ reset_part (name_at index) }
    {
        NodePart::with_reset_state(index, NodeState::reset(Node::at(index)))
    }

    /// The node at an index in order of name, after reset, made of another one after reset.
    pub(crate) fn reset_as(&self, index: usize) -> Self
        requires index { index < 144 }
        requires reset { (name : ℕ) × (self.now ≡ reset_part name) }
        ensures { result ≡ reset_part (name_at index) }
    {
        NodePart::with_reset_state(index, self.state.reset_as(Node::at(index)))
    }

    /// The node at an index in order of name, of which this is the state after reset.
    #[inline(always)]
    fn with_reset_state(index: usize, state: NodeState) -> Self
        requires index { index < 144 }
        requires state { state ≡ reset_state (name_at index) }
        ensures { result ≡ reset_part (name_at index) }
    {
        NodePart {
            watch: Watch::new(),
            state,
            written: Counts::new(),
            read: Counts::new(),
            stream: None,
            opened: false,
            ports: Ports::new(Node::at(index)),
        }
    }

    /// A copy of the part. Fails only when out of memory.
    pub(crate) fn copied(&self, alloc: Global) -> Result<Self, AllocError>
        ensures { IfOk result (λ copy. copy ≡ self.now) }
    {
        let stream = match &self.stream {
            Some(stream) => Some(stream.copied(alloc)?),
            None => None,
        };
        Ok(NodePart {
            watch: self.watch.copied(),
            state: self.state.copied(),
            written: self.written.copied(),
            read: self.read.copied(),
            stream,
            opened: self.opened,
            ports: self.ports,
        })
    }

    /// The node.
    pub fn node(&self) -> Node
        ensures { result ≡ self.now.state.node }
    {
        self.state.node()
    }

    /// The node's state.
    pub fn state(&self) -> &NodeState
        ensures { result.now ≡ self.now.state }
    {
        &self.state
    }

    /// How many words the node has written at a side.
    pub(crate) fn written(&self, side: Side) -> u64
        ensures { result ≡ count_at side self.now.written }
    {
        self.written.at(side)
    }

    /// How many words the node has read at a side.
    pub(crate) fn read(&self, side: Side) -> u64
        ensures { result ≡ count_at side self.now.read }
    {
        self.read.at(side)
    }

    /// A step if it is the node's own work, except a fetch of a node that has a breakpoint or a
    /// pass; else nothing. Answers whether the node made it.
    #[inline(always)]
    pub(crate) fn try_own(&mut self) -> bool
        ensures asks { result ≡ true → (side : Side) → asks self.old side ≡ Own }
        ensures quick { need_of self.old.state ≡ need.Own → is_fetch self.old.state.place ≡ false
            → result ≡ true }
        ensures step { self.new ≡ (if result then stepped None self.old else self.old) }
    {
        self.state.try_step(!self.watch.is_on())
    }

    /// A try of a node, over the chip's cells.
    #[inline(always)]
    pub(crate) fn attempt_far(&mut self, cells: &mut CellRow, side: Side) -> Far
        ensures part { (result.outcome, self.new)
            ≡ after self.old side (found_by (asks self.old side) cells.old) }
        ensures cells { cells.new ≡ cells_after (asks self.old side) cells.old }
        ensures wakes { result.outcome ≡ Moved
            → result.wakes ≡ option_map index_of
            (partner_of self.old.state.node (need_of self.old.state) side) }
        ensures place { IfSome result.wakes (λ place. place < 144) }
        ensures sleeps { result.sleeps ≡ true → (other : Side)
            → (after self.old other (found_by (asks self.old other) cells.old)).0 ≢ Moved }
    {
        if self.is_unwatched() {
            if let Some(to) = self.state.checks() {
                return self.attempt_need(&Need::Check(to), cells, side);
            }
            if let Some(sides) = self.state.takes() {
                return self.attempt_need(&Need::Take(sides), cells, side);
            }
            if let Some(to) = self.state.posts() {
                let word = self.state.t();
                return self.attempt_need(&Need::Post(to, word), cells, side);
            }
        }
        self.attempt_other(cells, side)
    }

    /// The same, by all that a node may need.
    #[cold]
    #[inline(never)]
    fn attempt_other(&mut self, cells: &mut CellRow, side: Side) -> Far
        ensures part { (result.outcome, self.new)
            ≡ after self.old side (found_by (asks self.old side) cells.old) }
        ensures cells { cells.new ≡ cells_after (asks self.old side) cells.old }
        ensures wakes { result.outcome ≡ Moved
            → result.wakes ≡ option_map index_of
            (partner_of self.old.state.node (need_of self.old.state) side) }
        ensures place { IfSome result.wakes (λ place. place < 144) }
        ensures sleeps { result.sleeps ≡ true → (other : Side)
            → (after self.old other (found_by (asks self.old other) cells.old)).0 ≢ Moved }
    {
        let need = self.state.need();
        if self.is_held(&need) {
            return Far {
                outcome: Outcome::Held,
                wakes: None,
                sleeps: true,
            };
        }
        self.attempt_need(&need, cells, side)
    }

    /// A try of a node that isn't held, by what it needs.
    #[inline(always)]
    fn attempt_need(&mut self, need: &Need, cells: &mut CellRow, side: Side) -> Far
        requires need { need.now ≡ need_of self.old.state }
        requires free { (other : Side) → asks self.old other
            ≡ asks_by need.now self.old.state.node self.old.stream other }
        ensures part { (result.outcome, self.new)
            ≡ after self.old side (found_by (asks self.old side) cells.old) }
        ensures cells { cells.new ≡ cells_after (asks self.old side) cells.old }
        ensures wakes { result.outcome ≡ Moved
            → result.wakes ≡ option_map index_of
            (partner_of self.old.state.node (need_of self.old.state) side) }
        ensures place { IfSome result.wakes (λ place. place < 144) }
        ensures sleeps { result.sleeps ≡ true → (other : Side)
            → (after self.old other (found_by (asks self.old other) cells.old)).0 ≢ Moved }
    {
        let Met { outcome, wakes } = self.meet(need, cells, side);
        if let Outcome::Moved = outcome {
            return Far {
                outcome,
                wakes,
                sleeps: false,
            };
        }
        let sleeps = self.is_still(need, cells);
        Far {
            outcome,
            wakes: None,
            sleeps,
        }
    }

    /// Whether no try of the node is held, since it has no breakpoint. `false` if it isn't known.
    #[inline(always)]
    fn is_unwatched(&self) -> bool
        ensures { result ≡ true → (side : Side) → asks self.now side
            ≡ asks_by (need_of self.now.state) self.now.state.node self.now.stream side }
    {
        !self.watch.is_on()
    }

    /// Whether a try of the node would be held: it isn't stopped, and is about to fetch at a
    /// breakpoint without a pass.
    fn is_held(&self, need: &Need) -> bool
        requires { need.now ≡ need_of self.now.state }
        ensures held { result ≡ true → (side : Side) → asks self.now side ≡ Nothing Held }
        ensures free { result ≡ false → (side : Side)
            → asks self.now side ≡ asks_by need.now self.now.state.node self.now.stream side }
    {
        match *need {
            Need::Stopped(_) => false,
            _ => self.watch.holds(self.state.place(), self.state.p()),
        }
    }

    /// What a try of a node that isn't held asks for, by its need.
    #[inline(always)]
    fn asked_by(&self, need: &Need, side: Side) -> Asks
        requires { need.now ≡ need_of self.now.state }
        ensures { result ≡ told_as (asks_by need.now self.now.state.node self.now.stream side) }
    {
        match *need {
            Need::Own => Asks::Own,
            Need::Take(sides) => self.take_at(looked_at(sides, side)),
            Need::Post(to, word) => match self.writes(to) {
                Some(cell) => Asks::Post(to, cell, word),
                None => Asks::Nothing(Outcome::Waits),
            },
            Need::Check(to) => match self.writes(to) {
                Some(cell) => Asks::Check(to, cell),
                None => Asks::Nothing(Outcome::Waits),
            },
            Need::Input if self.has_input() => Asks::Own,
            Need::Input => Asks::Nothing(Outcome::Waits),
            Need::Stopped(_) => Asks::Nothing(Outcome::Stopped),
        }
    }

    /// What a take asks for, by the side at which it looks, if it looks at one.
    #[inline(always)]
    fn take_at(&self, from: Option<Side>) -> Asks
        ensures { result ≡ told_as (take_from self.now.state.node from) }
    {
        let Some(from) = from else {
            return Asks::Nothing(Outcome::Waits);
        };
        match self.reads(from) {
            Some(cell) => Asks::Take(from, cell),
            None => Asks::Nothing(Outcome::Waits),
        }
    }

    /// Whether a word is left of the node's stream.
    fn has_input(&self) -> bool
        ensures { told_as (input_of self.now.stream)
            ≡ (if result then Asks.Own else Asks.Nothing Waits) }
    {
        match &self.stream {
            Some(stream) => !stream.is_empty(),
            None => false,
        }
    }

    /// Meets a need of a node that isn't held, if it can be met now.
    #[inline(always)]
    fn meet(&mut self, need: &Need, cells: &mut CellRow, side: Side) -> Met
        requires need { need.now ≡ need_of self.old.state }
        requires free { asks self.old side
            ≡ asks_by need.now self.old.state.node self.old.stream side }
        ensures part { (result.outcome, self.new)
            ≡ after self.old side (found_by (asks self.old side) cells.old) }
        ensures cells { cells.new ≡ cells_after (asks self.old side) cells.old }
        ensures wakes { result.outcome ≡ Moved → result.wakes
            ≡ option_map index_of (partner_of self.old.state.node need.now side) }
        ensures place { IfSome result.wakes (λ place. place < 144) }
    {
        match self.asked_by(need, side) {
            Asks::Own => Met {
                outcome: self.work(need),
                wakes: None,
            },
            Asks::Post(to, cell, word) => {
                let wakes = self.neighbour(to);
                cells.post(cell, word);
                let outcome = self.post(to, word);
                Met { outcome, wakes }
            }
            Asks::Take(from, cell) => {
                let wakes = self.neighbour(from);
                let found = cells.take(cell);
                let outcome = self.take(from, found);
                Met { outcome, wakes }
            }
            Asks::Check(to, cell) => {
                let empty = cells.pending(cell).is_none();
                Met {
                    outcome: self.check(empty),
                    wakes: None,
                }
            }
            Asks::Nothing(outcome) => Met {
                outcome,
                wakes: None,
            },
        }
    }

    /// The place in order of name of the neighbour at a side.
    #[inline(always)]
    fn neighbour(&self, side: Side) -> Option<usize>
        ensures value { result ≡ option_map index_of (neighbour_of self.now.state.node side) }
        ensures bound { IfSome result (λ place. place < 144) }
    {
        Some(usize::from(self.ports.at(side)?.neighbour))
    }

    /// Whether a try would move at no side, after a try at one side didn't. `false` if it isn't
    /// known.
    fn is_still(&self, need: &Need, cells: &CellRow) -> bool
        requires need { need.now ≡ need_of self.now.state }
        requires still { (side : Side)
            × ((after self.now side (found_by (asks self.now side) cells.now)).0 ≢ Moved) }
        ensures { result ≡ true → (side : Side)
            → (after self.now side (found_by (asks self.now side) cells.now)).0 ≢ Moved }
    {
        let Need::Take(sides) = *need else {
            return true;
        };
        if sides.only().is_some() {
            return true;
        }
        let right = self.finds(cells, sides, Side::Right);
        let down = self.finds(cells, sides, Side::Down);
        let left = self.finds(cells, sides, Side::Left);
        let up = self.finds(cells, sides, Side::Up);
        !(right | down | left | up)
    }

    /// Whether a side is one of several and a word is pending there.
    fn finds(&self, cells: &CellRow, sides: Sides, side: Side) -> bool
        ensures { result ≡ false → is_among side sides ≡ true
            → found_by (at_cell (Take side) (read_cell self.now.state.node side)) cells.now ≡ None }
    {
        if !sides.has(side) {
            return false;
        }
        match self.reads(side) {
            Some(cell) => cells.pending(cell).is_some(),
            None => false,
        }
    }

    /// What the node shares with its neighbour at a side, if it has one there.
    pub(crate) fn port(&self, side: Side) -> Option<Port>
        ensures reads { option_map (λ port. port.reads) result
            ≡ read_cell self.now.state.node side }
        ensures writes { option_map (λ port. port.writes) result
            ≡ cell_of self.now.state.node side }
        ensures neighbour { option_map (λ port. port.neighbour) result
            ≡ option_map index_of (neighbour_of self.now.state.node side) }
        ensures place { IfSome result (λ port. port.neighbour < 144) }
    {
        self.ports.at(side)
    }

    /// The cell that the node reads at a side.
    #[inline(always)]
    fn reads(&self, side: Side) -> Option<CellId>
        ensures { result ≡ read_cell self.now.state.node side }
    {
        Some(self.ports.at(side)?.reads)
    }

    /// The cell that the node writes at a side.
    #[inline(always)]
    fn writes(&self, side: Side) -> Option<CellId>
        ensures { result ≡ cell_of self.now.state.node side }
    {
        Some(self.ports.at(side)?.writes)
    }

    /// Makes a try that touches no cell: the node does its own work, or takes the next word of its
    /// stream.
    #[inline(always)]
    fn work(&mut self, need: &Need) -> Outcome
        requires need { need.now ≡ need_of self.old.state }
        requires own { (side : Side)
            × (told_as (asks_by need.now self.old.state.node self.old.stream side) ≡ Asks.Own) }
        ensures { (side : Side) → (result, self.new)
            ≡ after_asked (asks_by need.now self.old.state.node self.old.stream side) None
            self.old }
    {
        match *need {
            Need::Input => self.input(),
            _ => self.own(),
        }
    }

    #[inline(always)]
    fn own(&mut self) -> Outcome
        requires { need_of self.old.state ≡ need.Own }
        ensures { (result, self.new) ≡ after_asked Own None self.old }
    {
        self.watch.step(self.state.place());
        self.state.step_own();
        Outcome::Moved
    }

    /// The loader takes the next word of the node's stream, if one is left.
    #[inline(always)]
    fn input(&mut self) -> Outcome
        requires { need_of self.old.state ≡ need.Input }
        ensures { (result, self.new) ≡ after_asked (input_of self.old.stream) None self.old }
    {
        let Some(stream) = &mut self.stream else {
            return Outcome::Waits;
        };
        let Some(word) = stream.next() else {
            return Outcome::Waits;
        };
        self.watch.step(self.state.place());
        self.state.step_input(word);
        Outcome::Moved
    }

    /// The node has posted its word at a side.
    #[inline(always)]
    fn post(&mut self, to: Side, word: Word18) -> Outcome
        requires { need_of self.old.state ≡ need.Post to word }
        ensures { (cell : ℕ) → (result, self.new) ≡ after_asked (Post to cell word) None self.old }
    {
        self.watch.step(self.state.place());
        self.state.step_post(to, word);
        self.written.count(to);
        Outcome::Moved
    }

    /// The node takes the word that was found at a side, if one was.
    #[inline(always)]
    fn take(&mut self, from: Side, found: Option<Word18>) -> Outcome
        requires { takes_at from (need_of self.old.state) ≡ true }
        ensures { (cell : ℕ) → (result, self.new) ≡ after_asked (Take from cell) found self.old }
    {
        let Some(word) = found else {
            return Outcome::Waits;
        };
        self.watch.step(self.state.place());
        self.state.step_took(from, word);
        self.read.count(from);
        Outcome::Moved
    }

    /// The node goes on if the word that it posted was read.
    #[inline(always)]
    fn check(&mut self, empty: bool) -> Outcome
        requires { is_check (need_of self.old.state) ≡ true }
        ensures read { empty ≡ true → (side : Side) (cell : ℕ)
            → (result, self.new) ≡ after_asked (Check side cell) None self.old }
        ensures unread { empty ≡ false → (side : Side) (cell word : ℕ)
            → (result, self.new) ≡ after_asked (Check side cell) (Some word) self.old }
    {
        if !empty {
            return Outcome::Waits;
        }
        self.watch.step(self.state.place());
        self.state.step_checked();
        Outcome::Moved
    }

    pub(crate) fn set_break(&mut self, address: u16)
        requires { address < 2 ^ 9 }
        ensures { self.new ≡ break_set address self.old }
    {
        self.watch.set(address);
    }

    pub(crate) fn clear_break(&mut self, address: u16)
        requires { address < 2 ^ 9 }
        ensures { self.new ≡ break_cleared address self.old }
    {
        self.watch.clear(address);
    }

    pub(crate) fn has_break(&self, address: u16) -> bool
        requires { address < 2 ^ 9 }
        ensures { result ≡ get_or self.now.breaks address false }
    {
        self.watch.has(address)
    }

    /// Whether the node's tries are held, whatever side they name.
    pub(crate) fn stands_at_break(&self) -> bool
        ensures { (side : Side) → result ≡ is_hold (asks self.now side) }
    {
        self.is_held(&self.state.need())
    }

    /// Gives the node a pass, if it is held. Answers whether it was.
    pub(crate) fn pass_break(&mut self) -> bool
        ensures held { (side : Side) → result ≡ is_hold (asks self.old side) }
        ensures part { self.new ≡ break_passed self.old }
    {
        let held = self.stands_at_break();
        if held {
            self.watch.pass();
        }
        held
    }
}

/// The side at which a take looks: its one side, or of several the one that the try names.
fn looked_at(sides: Sides, side: Side) -> Option<Side>
    ensures { result ≡ looked_at (one_side sides) sides side }
{
    match sides.only() {
        Some(only) => Some(only),
        None if sides.has(side) => Some(side),
        None => None,
    }
}
