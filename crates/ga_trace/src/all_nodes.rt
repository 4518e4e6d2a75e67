//! How deep the stacks of all nodes were, in one run.
ghost use Rattle.std.specs.Prelude.{◌≡◌, IfOk, length, replicate};
ghost use Rattle.ga_trace.specs.Depth.{BOTH_EMPTY, all_depths};
ghost use Rattle.ga_trace.specs.Traced.{moved_in, turned};
ghost use Rattle.ga_trace.specs.inner.AllDepths.{HaveSteps, HaveTurn, HaveTurns};

use crate::depth::{StackDepths, after_step, both_empty};
use crate::last_steps::LastSteps;
use crate::traced::quiet_after;
use ga_chip::Chip;
use ga_observe::turn;
use std::alloc::{AllocError, Global};

/// How many words both stacks of each node held at most in a number of turns of a copy of a chip,
/// in order of name: pushed, and not yet popped. The chip itself makes no turn. It is what `depths`
/// shows for one node. Fails only when out of memory.
pub fn all_depths(alloc: Global, chip: &Chip, turns: u32) -> Result<Vec<StackDepths>, AllocError>
    ensures depths { IfOk result (λ depths. depths.items ≡ all_depths turns chip.now) }
    ensures all { IfOk result (λ depths. length depths.items ≡ 144) }
{
    let mut chip = chip.copied(alloc)?;
    let mut last = LastSteps::new(alloc, &chip)?;
    let mut depths = all_empty(alloc)?;
    make_turns(&mut chip, &mut last, &mut depths, u64::from(turns));
    Ok(depths)
}

/// No words in both stacks of each node.
fn all_empty(alloc: Global) -> Result<Vec<StackDepths>, AllocError>
    ensures { IfOk result (λ depths. depths.items ≡ replicate 144 BOTH_EMPTY) }
{
    let empty = both_empty();
    let depths = vec![in alloc; empty; 144]?;
    Ok(depths)
}

/// Makes turns of all nodes, until no node can move. Adds their steps to the depths.
fn make_turns(chip: &mut Chip, last: &mut LastSteps, depths: &mut Vec<StackDepths>, most: u64)
    requires { length depths.now.items ≡ 144 }
    ensures { HaveTurns most chip.old chip.new depths.old.items depths.new.items }
{
    let mut quiet = 0;
    for number in 0..most {
        if quiet == 4 {
            return;
        }
        let moved = make_turn(chip, last, depths, number);
        quiet = quiet_after(quiet, moved);
    }
}

/// Makes the turn of a number, and adds its steps to the depths. Answers how many they are.
fn make_turn(
    chip: &mut Chip,
    last: &mut LastSteps,
    depths: &mut Vec<StackDepths>,
    number: u64,
) -> u8
    requires { length depths.now.items ≡ 144 }
    ensures chip { chip.new ≡ turned number chip.old }
    ensures moved { result ≡ moved_in number chip.old }
    ensures depths { HaveTurn number chip.old depths.old.items depths.new.items }
{
    last.start(chip);
    let moved = turn(chip, last, number);
    add_steps(depths, last);
    moved
}

/// Adds the last step of each node to the depths.
fn add_steps(depths: &mut Vec<StackDepths>, last: &LastSteps)
    requires { length depths.now.items ≡ 144 }
    ensures { HaveSteps last.now.nodes.items depths.old.items depths.new.items }
{
    for index in 0..144 {
        let node = &last.nodes[index];
        depths[index] = after_step(&depths[index], &node.step, node.r);
    }
}
