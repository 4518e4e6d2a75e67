ghost use Rattle.std.specs.Prelude.{◌≡◌, ◌<◌, ◌-◌, ◌^◌, ◌&&◌, not, if◌then◌else◌};
ghost use Rattle.ga_debug.specs.Until.{is_there, let_go, turn_past, until_done, until_from};

use crate::address::Address;
use crate::breaks::is_held_at;
use ga_chip::{Chip, side_of_turn};
use ga_place::Node;

/// The turns and moves until a node was held at an address.
#[derive(Clone, Copy)]
pub(crate) struct Reached {
    /// How many turns.
    pub(crate) turns: u32,
    /// How many steps they made.
    pub(crate) moved: u64,
}

/// Makes turns, `count` at most, until a node is held at an address, which is a breakpoint for that
/// time, and which the node passes `passes` times before.
#[tactic(auto, unfolding(crate::specs::Until::until_done))]
pub(crate) fn until(
    chip: &mut Chip,
    node: Node,
    address: Address,
    passes: u32,
    count: u32,
) -> Option<Reached>
    ensures { (result, chip.new) ≡ until_done node address passes count chip.old }
{
    let address = address.get();
    let was_break = chip.has_break(node, address);
    chip.set_break(node, address);
    let reached = turns_until(chip, node, address, passes, count);
    if !was_break {
        chip.clear_break(node, address);
    }
    reached
}

/// Makes turns, `count` at most, until a node is held at an address after this many passes.
fn turns_until(
    chip: &mut Chip,
    node: Node,
    address: u16,
    passes: u32,
    count: u32,
) -> Option<Reached>
    requires { address < 2 ^ 9 }
    ensures { (result, chip.new) ≡ until_from count 0 0 passes node address chip.old }
{
    let mut moved = 0;
    let mut left = passes;
    for turns in 0..count {
        if is_there(chip, node, address, left) {
            return Some(Reached { turns, moved });
        }
        let (behind, steps) = turn_past(chip, node, address, left, turns);
        left = behind;
        moved += u64::from(steps);
    }
    if is_there(chip, node, address, left) {
        return Some(Reached {
            turns: count,
            moved,
        });
    }
    None
}

/// Whether a node is held at an address, and no passes are left.
fn is_there(chip: &Chip, node: Node, address: u16, passes: u32) -> bool
    ensures { result ≡ is_there node address passes chip.now }
{
    is_held_at(chip, node, address) && passes == 0
}

/// Makes the turn of a number, in which a node isn't held at an address, which is a breakpoint
/// behind it. Answers how many passes are left, and how many steps it made.
fn turn_past(chip: &mut Chip, node: Node, address: u16, passes: u32, number: u32) -> (u32, u8)
    requires { address < 2 ^ 9 }
    ensures { (result, chip.new) ≡ turn_past node address passes number chip.old }
{
    let was_held = is_held_at(chip, node, address);
    let_go(chip, node, address);
    let steps = chip.turn(side_of_turn(u64::from(number)));
    chip.set_break(node, address);
    let is_held = is_held_at(chip, node, address);
    (passes_left(passes, was_held, is_held), steps)
}

/// A node that is held at an address isn't held there any more.
fn let_go(chip: &mut Chip, node: Node, address: u16)
    ensures { chip.new ≡ let_go node address chip.old }
{
    if is_held_at(chip, node, address) {
        chip.clear_break(node, address);
    }
}

/// A node that was held and went on has one pass less.
fn passes_left(passes: u32, was_held: bool, is_held: bool) -> u32
    ensures { result ≡ (if was_held && not is_held then passes - 1 else passes) }
{
    if was_held && !is_held {
        passes.saturating_sub(1)
    } else {
        passes
    }
}
