//! Nodes that are stuck.
ghost use Rattle.std.specs.Prelude.{◌≡◌, [], true};
ghost use Rattle.ga_chip.specs.Chip.{state_of};
ghost use Rattle.ga_chip.specs.Run.{moves, moves_of, ran, tries_of};

use ga_chip::laws::{runs, stuck};
use ga_chip::{Chip, Try};
use ga_place::Node;

/// Makes tries of a chip, and answers whether a node was stuck before. Then none of its tries was
/// `Moved`, and it ends as it was.
pub fn tries_beside_stuck(chip: &mut Chip, node: Node, tries: &[Try]) -> bool
    ensures chip { chip.new ≡ ran chip.old (tries_of tries.now) }
    ensures moves { result ≡ true → moves_of node (moves chip.old (tries_of tries.now)) ≡ [] }
    ensures state { result ≡ true → state_of chip.new node ≡ state_of chip.old node }
{
    chip.legal();
    stuck();
    runs();
    let is_stuck = chip.stuck().contains(node);
    chip.run(tries);
    is_stuck
}
