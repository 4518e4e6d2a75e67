//! The work of a single worker, in the caller's thread.
ghost use Rattle.std.specs.Prelude.{◌≡◌, ◌≤◌, ◌<◌, ◌^◌, length};
ghost use Rattle.ga_chip.specs.Run.{moves, ran, tries_of};
ghost use Rattle.ga_group.specs.Workers.{round_of, rounds_of};

use crate::gate::Gate;
use ga_chip::{Chip, Try, side_of_turn};
use ga_place::{Node, Side};

/// The rounds of one worker, which tries these nodes of a chip: in each turn it calls the gate, and
/// then tries each node once, in order.
pub(crate) fn work_alone<G: Gate>(chip: Chip, gate: &G, nodes: &[Node], turns: u64) -> Chip
    requires few { length nodes.now ≤ 144 }
    requires turns { turns < 2 ^ 40 }
    ensures { result ≡ ran chip (tries_of (rounds_of nodes.now turns)) }
{
    let mut chip = chip;
    let mut moved = 0;
    for turn in 0..turns {
        gate.turn(0, turn, moved);
        moved += round(&mut chip, nodes, side_of_turn(turn));
    }
    chip
}

/// One try of each node, in order and all with one side. Answers how many were `Moved`.
#[inline(never)]
fn round(chip: &mut Chip, nodes: &[Node], side: Side) -> u64
    requires { length nodes.now ≤ 144 }
    ensures chip { chip.new ≡ ran chip.old (tries_of (round_of nodes.now side)) }
    ensures moved { result ≡ length (moves chip.old (tries_of (round_of nodes.now side))) }
    ensures few { result ≤ length nodes.now }
{
    let mut moved = 0;
    for node in nodes {
        moved += u64::from(chip.attempt_step(Try { node: *node, side }));
    }
    moved
}
