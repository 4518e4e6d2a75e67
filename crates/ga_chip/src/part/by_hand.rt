//! Tries of a node by hand, over cells that are kept elsewhere: what a try asks for, and its change
//! to the node.
ghost use Rattle.std.specs.Prelude.{◌≡◌, ◌≢◌, ℕ, false, true, None, Some};
ghost use Rattle.ga_place.specs.declared.side.Side.{Side};
ghost use Rattle.ga_node.specs.Need.{need_of};
ghost use Rattle.ga_node.specs.State.{is_fetch};
ghost use Rattle.ga_node.specs.declared.need.Need.TheVariants as need;
ghost use Rattle.ga_chip.specs.Part.{after};
ghost use Rattle.ga_chip.specs.Asks.{asked_of, look_of, looks_of};
ghost use Rattle.ga_chip.specs.declared.outcome.Outcome.{Outcome};
ghost use Rattle.ga_chip.specs.declared.outcome.Outcome.TheVariants.{Moved};

use super::NodePart;
use crate::asks::Asks;
use crate::looks::Looks;
use crate::outcome::Outcome;
use ga_node::Need;
use ga_place::{CellId, Side};
use ga_word::Word18;

impl NodePart {
    /// What a try of the node that names a side asks for. `Nothing` has the outcome of the try,
    /// which is never `Moved`: `Stopped` if the node makes no step any more; else `Held` if it is
    /// about to fetch at a breakpoint, without a pass; and `Waits` if it asks at a side without a
    /// neighbour, or for a word of its stream when none is left. Such a try changes nothing, and
    /// needs no further call.
    pub fn asks(&self, side: Side) -> Asks
        ensures value { result ≡ asked_of self.now side }
        ensures still { (outcome : Outcome) → result ≡ Asks.Nothing outcome → outcome ≢ Moved }
    {
        let need = self.state.need();
        if self.is_held(&need) {
            return Asks::Nothing(Outcome::Held);
        }
        self.asked_by(&need, side)
    }

    /// The cells at which the node's tries look, if each of them asks to take a word or for
    /// nothing, whatever side it names. As long as no try finds a word, the node stays as it is,
    /// and so do its looks.
    #[tactic(auto, unfolding(crate::specs::Asks::looks_of))]
    pub fn looks(&self) -> Option<Looks>
        ensures { result ≡ looks_of self.now }
    {
        let right = self.look(Side::Right)?;
        let down = self.look(Side::Down)?;
        let left = self.look(Side::Left)?;
        let up = self.look(Side::Up)?;
        Some(Looks::new(right, down, left, up))
    }

    /// The cell at which a try looks that names a side, if it asks to take a word or for nothing.
    fn look(&self, side: Side) -> Option<Option<CellId>>
        ensures { result ≡ look_of (asked_of self.now side) }
    {
        match self.asks(side) {
            Asks::Take(_, cell) => Some(Some(cell)),
            Asks::Nothing(_) => Some(None),
            Asks::Own | Asks::Post(..) | Asks::Check(..) => None,
        }
    }

    /// Makes a try that asks for `Own`: the node does its own work, or takes the next word of its
    /// stream.
    pub fn done_own(&mut self) -> Outcome
        requires { (side : Side) × (asked_of self.old side ≡ Asks.Own) }
        ensures part { (side : Side) → asked_of self.old side ≡ Asks.Own
            → (result, self.new) ≡ after self.old side None }
        ensures node { self.new.state.node ≡ self.old.state.node }
    {
        let need = self.state.need();
        self.work(&need)
    }

    /// Makes a try that asks for a post at this side, after the word was put into the cell.
    pub fn done_post(&mut self, to: Side) -> Outcome
        requires { (side : Side) × (cell : ℕ) × (word : ℕ)
            × (asked_of self.old side ≡ Asks.Post to cell word) }
        ensures part { (side : Side) (cell word : ℕ)
            → asked_of self.old side ≡ Asks.Post to cell word
            → (result, self.new) ≡ after self.old side None }
        ensures node { self.new.state.node ≡ self.old.state.node }
    {
        let Need::Post(_, word) = self.state.need() else {
            unreachable!();
        };
        self.post(to, word)
    }

    /// Makes a try that asks for a take at this side, by the word that was found in the cell and
    /// taken from it: the node waits if there was none.
    pub fn done_take(&mut self, from: Side, found: Option<Word18>) -> Outcome
        requires { (side : Side) × (cell : ℕ) × (asked_of self.old side ≡ Asks.Take from cell) }
        ensures part { (side : Side) (cell : ℕ) → asked_of self.old side ≡ Asks.Take from cell
            → (result, self.new) ≡ after self.old side found }
        ensures node { self.new.state.node ≡ self.old.state.node }
    {
        self.take(from, found)
    }

    /// Makes a try that asks for a check at this side, by whether the cell was found empty, since
    /// its word was read: the node waits if it wasn't.
    pub fn done_check(&mut self, to: Side, empty: bool) -> Outcome
        requires { (side : Side) × (cell : ℕ) × (asked_of self.old side ≡ Asks.Check to cell) }
        ensures read { (side : Side) (cell : ℕ) → asked_of self.old side ≡ Asks.Check to cell
            → empty ≡ true → (result, self.new) ≡ after self.old side None }
        ensures unread { (side : Side) (cell word : ℕ) → asked_of self.old side ≡ Asks.Check to cell
            → empty ≡ false → (result, self.new) ≡ after self.old side (Some word) }
        ensures node { self.new.state.node ≡ self.old.state.node }
    {
        self.check(empty)
    }
}
