//! The words at a side of a node.
ghost use Rattle.std.specs.Prelude.{◌≡◌};
ghost use Rattle.ga_map.specs.Posted as spec;

use ga_chip::Chip;
use ga_place::{Node, Side, cell, neighbour};
use ga_word::Word18;

/// The word that a node posted at a side, if it isn't read.
pub(crate) fn posted(chip: &Chip, node: Node, side: Side) -> Option<Word18>
    ensures { result ≡ spec.posted chip.now node side }
{
    match cell(node, side) {
        Some(at) => chip.cells().pending(at),
        None => None,
    }
}

/// The word that a node can take at a side, if one is pending.
pub(crate) fn offered(chip: &Chip, node: Node, side: Side) -> Option<Word18>
    ensures { result ≡ spec.offered chip.now node side }
{
    match neighbour(node, side) {
        Some(other) => posted(chip, other, side),
        None => None,
    }
}
