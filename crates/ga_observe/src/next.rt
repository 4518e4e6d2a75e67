//! The step that the next try of a node makes, if it is `Moved`.
ghost use Rattle.std.specs.Prelude.{◌≡◌, [], ◌∷◌};
ghost use Rattle.ga_chip.specs.Chip.{tried};
ghost use Rattle.ga_chip.specs.Run.{Try as try_event};
ghost use Rattle.ga_chip.specs.Stream.{next_input};
ghost use Rattle.ga_chip.specs.declared.outcome.Outcome.TheVariants.{Moved};
ghost use Rattle.ga_observe.specs.Seen.{steps_in};
ghost use Rattle.ga_observe.specs.inner.Next.{deed_by, found_at, took, took_input};

use crate::step::{Deed, Step};
use ga_chip::Chip;
use ga_node::Need;
use ga_place::{Node, Side, Sides, cell, neighbour};
use ga_word::Word18;

/// The step that a try of a node makes that names this side, if it is `Moved`.
#[inline(always)]
pub(crate) fn next_step(chip: &Chip, node: Node, side: Side, turn: u64) -> Step
    ensures { (tried chip.now node side).0 ≡ Moved
        → steps_in turn chip.now (try_event node side) ≡ result ∷ [] }
{
    chip.legal();
    let state = chip.state(node);
    let need = state.need();
    let deed = next_deed(chip, node, side, &need);
    Step {
        node,
        number: state.steps(),
        turn,
        place: state.place(),
        p: state.p(),
        word: state.word(),
        deed,
    }
}

/// What the node does, by its need.
#[inline(always)]
fn next_deed(chip: &Chip, node: Node, side: Side, need: &Need) -> Deed
    ensures { result ≡ deed_by need.now node chip.now.cells (next_input chip.now node) side }
{
    match *need {
        Need::Take(sides) => {
            let from = sides.only().unwrap_or(side);
            take_deed(chip, node, from, sides)
        }
        Need::Post(to, word) => Deed::Posted(to, word),
        Need::Check(to) => Deed::SawRead(to),
        Need::Input => input_deed(chip, node),
        Need::Own | Need::Stopped(_) => Deed::Own,
    }
}

/// The take of the word at a side, if one is pending there.
fn take_deed(chip: &Chip, node: Node, side: Side, sides: Sides) -> Deed
    ensures { result ≡ took side sides (found_at node chip.now.cells side) }
{
    match found_at(chip, node, side) {
        Some(word) => Deed::Took {
            side,
            of: sides,
            word,
        },
        None => Deed::Own,
    }
}

/// The word that is pending at a side for the node to take.
fn found_at(chip: &Chip, node: Node, side: Side) -> Option<Word18>
    ensures { result ≡ found_at node chip.now.cells side }
{
    let other = neighbour(node, side)?;
    let at = cell(other, side)?;
    chip.cells().pending(at)
}

/// The take of the next word of the node's stream, if one is left.
fn input_deed(chip: &Chip, node: Node) -> Deed
    ensures { result ≡ took_input (next_input chip.now node) }
{
    match chip.next_input(node) {
        Some(word) => Deed::TookInput(word),
        None => Deed::Own,
    }
}
