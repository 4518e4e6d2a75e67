//! The words that nodes posted.
ghost use Rattle.std.specs.Prelude.{◌≡◌};
ghost use Rattle.ga_map.specs.Posted as map;

use ga_chip::Chip;
use ga_place::{Node, Side, cell};
use ga_word::Word18;

/// The word that a node posted at a side, if it isn't read.
pub(crate) fn posted(chip: &Chip, node: Node, side: Side) -> Option<Word18>
    ensures { result ≡ map.posted chip.now node side }
{
    match cell(node, side) {
        Some(at) => chip.cells().pending(at),
        None => None,
    }
}
