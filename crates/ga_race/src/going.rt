//! Nodes that rest: no try of them would be moved.
ghost use Rattle.std.specs.Prelude.{◌≡◌, ◌≢◌, false, is_none, true};
ghost use Rattle.std.specs.Option.{option_map_or};
ghost use Rattle.ga_chip.specs.Chip.{pending_in, tried};
ghost use Rattle.ga_chip.specs.Stream.{next_input};
ghost use Rattle.ga_chip.specs.Stuck.{is_full};
ghost use Rattle.ga_chip.specs.declared.outcome.Outcome.TheVariants.{Held, Moved};
ghost use Rattle.ga_place.specs.Cell.{cell_of, read_cell};
ghost use Rattle.ga_race.specs.Spins.{IsResting};
ghost use Rattle.ga_race.specs.inner.Going.{goes_by};

use ga_chip::Chip;
use ga_node::Need;
use ga_place::{Node, Side, cell, neighbour};

/// Whether no try of a node would be `Moved` or `Held`, whatever side it names.
pub(crate) fn is_resting(chip: &Chip, node: Node) -> bool
    ensures { result ≡ true → IsResting chip.now node }
{
    !may_move(chip, node, Side::Right)
        && !may_move(chip, node, Side::Down)
        && !may_move(chip, node, Side::Left)
        && !may_move(chip, node, Side::Up)
}

/// Whether a try of a node that names a side may be `Moved` or `Held`.
fn may_move(chip: &Chip, node: Node, side: Side) -> bool
    ensures { result ≡ false → ((tried chip.now node side).0 ≢ Moved)
        × ((tried chip.now node side).0 ≢ Held) }
{
    chip.legal();
    if chip.is_held(node) {
        return true;
    }
    let need = chip.state(node).need();
    goes(chip, node, &need, side)
}

/// Whether a try of a node with this need is moved, if no breakpoint holds the node.
fn goes(chip: &Chip, node: Node, need: &Need, side: Side) -> bool
    ensures { result ≡ goes_by need.now node chip.now.cells (next_input chip.now node) side }
{
    match *need {
        Need::Own => true,
        Need::Input => chip.next_input(node).is_some(),
        Need::Stopped(_) => false,
        Need::Post(to, _) => cell(node, to).is_some(),
        Need::Check(to) => is_read(chip, node, to),
        Need::Take(sides) => match sides.only() {
            Some(only) => is_word_at(chip, node, only),
            None => sides.has(side) && is_word_at(chip, node, side),
        },
    }
}

/// Whether a node has a cell to write at a side, and no word is pending there.
fn is_read(chip: &Chip, node: Node, to: Side) -> bool
    ensures { result ≡ option_map_or (λ cell. is_none (pending_in chip.now.cells cell))
        (cell_of node to) false }
{
    match cell(node, to) {
        Some(at) => chip.cells().pending(at).is_none(),
        None => false,
    }
}

/// Whether a word is pending at a side for a node to take.
fn is_word_at(chip: &Chip, node: Node, from: Side) -> bool
    ensures { result ≡ is_full chip.now.cells (read_cell node from) }
{
    let Some(other) = neighbour(node, from) else {
        return false;
    };
    match cell(other, from) {
        Some(at) => chip.cells().pending(at).is_some(),
        None => false,
    }
}
