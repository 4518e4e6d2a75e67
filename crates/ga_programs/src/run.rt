ghost use Rattle.std.specs.Prelude.{◌≡◌, ◌<◌, ◌∷◌, [], IfErr, IfOk, List, ℕ, string_bytes};
ghost use Rattle.ga_input.specs.declared.fault.ServeError.TheVariants.{Memory};
ghost use Rattle.ga_chip.specs.Run.{ran, tries_of};
ghost use Rattle.ga_group.specs.Plan.{groups_of};
ghost use Rattle.ga_group.specs.Workers.{IsWorkersRun, rounds_of};
ghost use Rattle.ga_input.specs.Fault.{Answers, Gives};
ghost use Rattle.ga_input.specs.Tree.{tree_in};
ghost use Rattle.ga_programs.specs.Run.{HasRuns, IsRunFrom, IsRunOf, IsRunOutput, dealt, nodes_for, node_reports, plan_by};

use ga_asm::Images;
use ga_chip::Chip;
use ga_debug::booted_tree;
use ga_dump::{ledger_text, node_text};
use ga_group::{Plan, RunError, Together, run_workers};
use ga_input::{ServeError, images_of, tree_of};
use ga_place::Node;
use std::alloc::{AllocError, Global};
use std::thread::Threads;
use std::time::Clock;

/// The nodes of a tree of routes after a run, as text: they boot from the input, which is source
/// text, and `workers` workers make `turns` turns.
pub fn output<Rt: AllocGlobal + Threads + Clock + Sync>(
    rt: &Rt,
    routes: &str,
    workers: u32,
    turns: u32,
    input: &[u8],
) -> Result<String, ServeError>
    ensures output { Answers string_bytes (IsRunOutput routes.now workers turns input.now) result }
    // the order of tries is free, except for a single worker
    ensures only { HasRuns workers (IsRunOutput routes.now workers turns input.now) }
{
    let images = images_of(rt.alloc(), input)?;
    run_text(rt, routes, workers, turns, &images)
}

/// The same of images.
fn run_text<Rt: AllocGlobal + Threads + Clock + Sync>(
    rt: &Rt,
    routes: &str,
    workers: u32,
    turns: u32,
    images: &Images,
) -> Result<String, ServeError>
    ensures { Answers string_bytes (IsRunOf images.now workers turns (tree_in routes.now)) result }
{
    let alloc = rt.alloc();
    let tree = tree_of(alloc, routes)?;
    let chip = booted_tree(alloc, &tree, images)?;
    run_chip(rt, chip, tree.nodes(), workers, turns)
}

/// Nodes of a chip as text, after workers, who share them, have made `turns` turns.
fn run_chip<Rt: AllocGlobal + Threads + Clock + Sync>(
    rt: &Rt,
    chip: Chip,
    nodes: &[Node],
    workers: u32,
    turns: u32,
) -> Result<String, ServeError>
    ensures { Answers string_bytes (IsRunFrom chip nodes.now workers turns) result }
{
    let plan = plan_of(rt.alloc(), nodes, workers)?;
    let chip = after_run(rt, chip, &plan, turns)?;
    let text = node_reports(rt.alloc(), &chip, nodes)?;
    Ok(text)
}

/// The plan by which `workers` workers share nodes.
fn plan_of(alloc: Global, nodes: &[Node], workers: u32) -> Result<Plan, ServeError>
    ensures { Gives (λ plan. plan) result (plan_by (dealt workers nodes.now)) }
{
    let groups = dealt(alloc, nodes, workers as usize)?;
    let plan = Plan::new(groups)?;
    Ok(plan)
}

/// The nodes of each of `workers` workers.
fn dealt(alloc: Global, nodes: &[Node], workers: usize) -> Result<Vec<Vec<Node>>, AllocError>
    ensures { IfOk result (λ groups. groups_of groups ≡ dealt workers nodes.now) }
{
    let mut groups = Vec::new(alloc);
    for worker in 0..workers {
        groups.push(nodes_for(alloc, nodes, workers, worker)?)?;
    }
    Ok(groups)
}

/// The nodes of one worker: the i-th node goes to worker i modulo the number of workers.
fn nodes_for(
    alloc: Global,
    nodes: &[Node],
    workers: usize,
    worker: usize,
) -> Result<Vec<Node>, AllocError>
    requires { worker < workers }
    ensures { IfOk result (λ group. group.items ≡ nodes_for workers worker 0 nodes.now) }
{
    let mut group = Vec::new(alloc);
    for (at, node) in nodes.iter().enumerate() {
        if at % workers == worker {
            group.push(*node)?;
        }
    }
    Ok(group)
}

/// The chip after `turns` turns of workers.
fn after_run<Rt: AllocGlobal + Threads + Clock + Sync>(
    rt: &Rt,
    chip: Chip,
    plan: &Plan,
    turns: u32,
) -> Result<Chip, ServeError>
    ensures run { IfOk result (λ next. IsWorkersRun chip plan.now turns next) }
    ensures alone { IfOk result (λ next. (group : List ℕ) → plan.now ≡ group ∷ []
        → next ≡ ran chip (tries_of (rounds_of group turns))) }
    ensures memory { IfErr result (λ fault. fault ≡ Memory) }
{
    let turns = u64::from(turns);
    let gate = Together::new(rt, rt.alloc(), plan, turns)?;
    match run_workers(rt, rt.alloc(), chip, plan, turns, &gate) {
        Ok(chip) => Ok(chip),
        Err((RunError::Memory, _)) => Err(ServeError::Memory),
        Err((RunError::TooManyTurns, _)) => unreachable!(),
    }
}

/// The registers and stacks of nodes, and behind those of each node the numbers of its cells.
#[inline(never)]
fn node_reports(alloc: Global, chip: &Chip, nodes: &[Node]) -> Result<String, AllocError>
    ensures { IfOk result (λ text. string_bytes text ≡ node_reports chip.now nodes.now) }
{
    let mut text = String::new(alloc);
    for node in nodes {
        text.push_str(&node_text(alloc, chip.state(*node))?)?;
        text.push_str(&ledger_text(alloc, chip, *node)?)?;
    }
    Ok(text)
}
