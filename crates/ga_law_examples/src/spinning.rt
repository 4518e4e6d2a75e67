//! Runs of workers on chips whose nodes read no port.
ghost use Rattle.std.specs.Prelude.{◌≡◌, ◌≤◌, ◌^◌, IfErr, IfOk};
ghost use Rattle.ga_group.specs.Laws.{LeaveAlike};
ghost use Rattle.ga_group.specs.Workers.{IsWorkersRun};
ghost use Rattle.ga_group.specs.declared.error.RunError.TheVariants.{TooManyTurns};
ghost use Rattle.ga_law_examples.specs.Spinning as model;

use crate::plans::two_plans;
use ga_chip::Chip;
use ga_chip::laws::one_port;
use ga_group::{Gate, Plan, RunError};
use ga_place::Node;
use ga_word::Word18;
use std::alloc::{AllocError, Global};
use std::thread::Threads;

/// The chip in which each node spins: it runs an endless loop in its own memory. All is as after
/// reset, but each node has the word `jump 000` at address 000, and P there. Fails only when out of
/// memory.
pub fn spinning_chip(alloc: Global) -> Result<Chip, AllocError>
    ensures { IfOk result (λ chip. chip ≡ model.spinning_chip) }
{
    let words = [jump_000()];
    let mut chip = Chip::reset(alloc)?;
    for index in 0..144 {
        chip.place(Node::at(index), &words, 0).unwrap();
    }
    Ok(chip)
}

/// The word `jump 000`, by which a node goes on at address 000.
fn jump_000() -> Word18
    ensures { result ≡ model.JUMP_000 }
{
    Word18::new(0x1_0000).unwrap()
}

/// Builds two chips whose nodes spin, and runs each by a plan of its own. Then a node that has made
/// equally many steps ends alike. There is no condition on multiport reads, since no node makes
/// one. A refusal is that of `run_workers`; it is `Memory` too if there is no memory for the chips.
pub fn spinning_plans<R: Threads + Sync, G: Gate>(
    rt: &R,
    alloc: Global,
    plan: &Plan,
    another: &Plan,
    turns: u64,
    gate: &G,
) -> Result<(Chip, Chip), RunError>
    ensures first { IfOk result (λ ends. IsWorkersRun model.spinning_chip plan.now turns ends.0) }
    ensures second { IfOk result
        (λ ends. IsWorkersRun model.spinning_chip another.now turns ends.1) }
    ensures nodes { IfOk result (λ ends. LeaveAlike ends.0 ends.1) }
    ensures turns { IfErr result (λ fault. fault ≡ TooManyTurns → 2 ^ 40 ≤ turns) }
{
    one_port();
    let one = spinning_chip(alloc).map_err(|_| RunError::Memory)?;
    let two = spinning_chip(alloc).map_err(|_| RunError::Memory)?;
    two_plans(rt, alloc, one, two, plan, another, turns, gate)
}
