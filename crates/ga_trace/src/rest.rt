//! Turns until no node moves but those that spin.
ghost use Rattle.std.specs.Prelude.{◌≡◌, ◌+◌, ◌≤◌};
ghost use Rattle.ga_trace.specs.Rest.{calm_after, ran_from, spins};
ghost use Rattle.ga_trace.specs.Traced.{moved_in, turned};

use crate::spin_watch::{SpinWatch, spins_with};
use ga_chip::{Chip, side_of_turn};
use ga_place::Node;

/// Turns that were made.
#[derive(Clone, Copy)]
pub struct Ran {
    /// How many.
    pub turns: u32,
    /// How many steps they made.
    pub moved: u64,
    /// Whether the last four of them moved only nodes that spin.
    pub rests: bool,
}

/// Makes turns of all nodes, at most `most`, until four in a row moved only nodes that spin. A node
/// spins if at most four own steps lead back to its state, and none of them begins at a breakpoint.
/// A held node counts as resting. It allocates nothing. (Rest is this project's own: profile.)
pub fn run(chip: &mut Chip, most: u32) -> Ran
    ensures { (result, chip.new) ≡ ran_from most 0 0 0 chip.old }
{
    chip.legal();
    let mut watch = SpinWatch::new();
    let mut moved = 0;
    let mut calm = 0;
    for turns in 0..most {
        if calm == 4 {
            return Ran {
                turns,
                moved,
                rests: true,
            };
        }
        let spinning = watch.count(chip);
        let steps = made_steps(chip, turns);
        moved += u64::from(steps);
        calm = calm_after(calm, steps, spinning);
    }
    Ran {
        turns: most,
        moved,
        rests: calm == 4,
    }
}

/// Makes the turn of a number. Answers how many steps it made.
fn made_steps(chip: &mut Chip, number: u32) -> u8
    ensures chip { chip.new ≡ turned number chip.old }
    ensures moved { result ≡ moved_in number chip.old }
{
    chip.turn(side_of_turn(u64::from(number)))
}

/// How many turns in a row moved only nodes that spin, after one more.
fn calm_after(calm: u8, moved: u8, spinning: u8) -> u8
    requires { calm ≤ 4 }
    ensures value { result ≡ calm_after calm moved spinning }
    ensures most { result ≤ calm + 1 }
{
    if moved == spinning { calm + 1 } else { 0 }
}

/// Whether a node spins: at most four own steps lead back to its state, and none of them begins at
/// a breakpoint. (Rest is this project's own: profile.)
pub fn spins(chip: &Chip, node: Node) -> bool
    ensures { result ≡ spins chip.now node }
{
    spins_with(chip, node, chip.state(node))
}
