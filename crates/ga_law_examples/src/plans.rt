//! Runs of workers.
ghost use Rattle.std.specs.Prelude.{◌≡◌, ℕ, ◌++◌, ◌≤◌, ◌^◌, IfErr, IfOk, OnErr};
ghost use Rattle.ga_chip.specs.Chip as model;
ghost use Rattle.ga_chip.specs.Laws.{AgreesWith};
ghost use Rattle.ga_chip.specs.Legal.{DifferInBreaks, IsLegal};
ghost use Rattle.ga_chip.specs.Run.{ran, sides_of, tries_of};
ghost use Rattle.ga_group.specs.Laws.{LeaveAlike};
ghost use Rattle.ga_group.specs.Workers.{IsWorkersRun};
ghost use Rattle.ga_group.specs.declared.error.RunError.TheVariants.{TooManyTurns};

use ga_chip::laws::{confluence, runs};
use ga_chip::{Chip, Try};
use ga_group::laws::plans_agree;
use ga_group::{Gate, Plan, RunError, run_workers};
use std::alloc::Global;
use std::thread::Threads;

/// Runs two chips that differ at most in breakpoints, each by a plan of its own. The multiport
/// reads must name the same sides on the common steps, whatever the order of the tries of two
/// nodes. Then a node that has made equally many steps ends alike. A refusal is that of
/// `run_workers`.
// long: all that two runs are made of
pub fn two_plans<R: Threads + Sync, G: Gate>(
    rt: &R,
    alloc: Global,
    one: Chip,
    two: Chip,
    plan: &Plan,
    another: &Plan,
    turns: u64,
    gate: &G,
) -> Result<(Chip, Chip), RunError>
    requires chips { DifferInBreaks one two }
    requires sides { (next other : model.Chip) (run : IsWorkersRun one plan.now turns next)
        (again : IsWorkersRun two another.now turns other) (name : ℕ)
        → AgreesWith (sides_of one (tries_of run.tries) name)
        (sides_of two (tries_of again.tries) name) }
    ensures first { IfOk result (λ ends. IsWorkersRun one plan.now turns ends.0) }
    ensures second { IfOk result (λ ends. IsWorkersRun two another.now turns ends.1) }
    ensures nodes { IfOk result (λ ends. LeaveAlike ends.0 ends.1) }
    ensures turns { IfErr result (λ fault. fault ≡ TooManyTurns → 2 ^ 40 ≤ turns) }
{
    plans_agree();
    let first = after_run(rt, alloc, one, plan, turns, gate)?;
    let second = after_run(rt, alloc, two, another, turns, gate)?;
    Ok((first, second))
}

/// Runs a chip by a plan, and makes tries of another, which differs at most in breakpoints, in one
/// thread. The multiport reads must name the same sides on the common steps. Then a node that has
/// made equally many steps ends alike. A refusal is that of `run_workers`, and no try is made then.
// long: all that two runs are made of
pub fn plan_beside_tries<R: Threads + Sync, G: Gate>(
    rt: &R,
    alloc: Global,
    one: Chip,
    two: &mut Chip,
    plan: &Plan,
    turns: u64,
    tries: &[Try],
    gate: &G,
) -> Result<Chip, RunError>
    requires chips { DifferInBreaks one two.old }
    requires sides { (next : model.Chip) (run : IsWorkersRun one plan.now turns next) (name : ℕ)
        → AgreesWith (sides_of one (tries_of run.tries) name)
        (sides_of two.old (tries_of tries.now) name) }
    ensures run { IfOk result (λ next. IsWorkersRun one plan.now turns next) }
    ensures tries { IfOk result (λ _. two.new ≡ ran two.old (tries_of tries.now)) }
    ensures nodes { IfOk result (λ next. LeaveAlike next two.new) }
    ensures turns { IfErr result (λ fault. fault ≡ TooManyTurns → 2 ^ 40 ≤ turns) }
    ensures same { OnErr result (two.new ≡ two.old) }
{
    two.legal();
    plans_agree();
    let next = after_run(rt, alloc, one, plan, turns, gate)?;
    two.run(tries);
    Ok(next)
}

/// The same, with the first chip run by one plan and then by another: runs of workers, one after
/// the other, are one run along the tries of both.
// long: all that two runs are made of
pub fn plan_behind_plan<R: Threads + Sync, G: Gate>(
    rt: &R,
    alloc: Global,
    one: Chip,
    two: &mut Chip,
    plan: &Plan,
    another: &Plan,
    turns: u64,
    tries: &[Try],
    gate: &G,
) -> Result<Chip, RunError>
    requires chips { DifferInBreaks one two.old }
    requires sides { (next last : model.Chip) (run : IsWorkersRun one plan.now turns next)
        (again : IsWorkersRun next another.now turns last) (name : ℕ)
        → AgreesWith (sides_of one (tries_of (run.tries ++ again.tries)) name)
        (sides_of two.old (tries_of tries.now) name) }
    ensures runs { IfOk result (λ last. (next : model.Chip) × IsWorkersRun one plan.now turns next
        × IsWorkersRun next another.now turns last) }
    ensures tries { IfOk result (λ _. two.new ≡ ran two.old (tries_of tries.now)) }
    ensures nodes { IfOk result (λ last. LeaveAlike last two.new) }
    ensures turns { IfErr result (λ fault. fault ≡ TooManyTurns → 2 ^ 40 ≤ turns) }
    ensures same { OnErr result (two.new ≡ two.old) }
{
    two.legal();
    confluence();
    runs();
    let next = after_run(rt, alloc, one, plan, turns, gate)?;
    let last = after_run(rt, alloc, next, another, turns, gate)?;
    two.run(tries);
    Ok(last)
}

/// The chip after a run of workers. A refusal is that of `run_workers`, and hands no chip back.
pub fn after_run<R: Threads + Sync, G: Gate>(
    rt: &R,
    alloc: Global,
    chip: Chip,
    plan: &Plan,
    turns: u64,
    gate: &G,
) -> Result<Chip, RunError>
    ensures run { IfOk result (λ next. IsWorkersRun chip plan.now turns next) }
    ensures turns { IfErr result (λ fault. fault ≡ TooManyTurns → 2 ^ 40 ≤ turns) }
    ensures legal { IsLegal chip }
{
    match run_workers(rt, alloc, chip, plan, turns, gate) {
        Ok(next) => Ok(next),
        Err((fault, _)) => Err(fault),
    }
}
