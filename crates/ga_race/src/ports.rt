ghost use Rattle.std.specs.Prelude.{◌≡◌};
ghost use Rattle.ga_place.specs.Cell.{read_cell};
ghost use Rattle.ga_race.specs.inner.Parts as parts;

use ga_place::{CellId, Node, Side, Sides, cell, neighbour};

/// The cell that a node reads at a side.
pub(crate) fn read(node: Node, side: Side) -> Option<CellId>
    ensures { result ≡ read_cell node side }
{
    let other = neighbour(node, side)?;
    cell(other, side)
}

/// Whether a take of these sides, which takes a word at one, leaves out another.
pub(crate) fn is_left(sides: Sides, taken: Side, side: Side) -> bool
    ensures { result ≡ parts.is_left sides taken side }
{
    sides.has(side) && side != taken
}
