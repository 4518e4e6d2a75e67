ghost use Rattle.std.specs.Prelude.{◌≡◌, ◌∷◌, ◌≤◌, ◌<◌, ◌^◌, [], ℕ, List, true, IfErr, IfOk, OnOk};
ghost use Rattle.std.specs.List.{concat};
ghost use Rattle.ga_place.specs.Node.{IsNodeName, is_among};
ghost use Rattle.ga_chip.specs.Chip.{IsHeld, part_of};
ghost use Rattle.ga_chip.specs.Grow.{LedgersGrow};
ghost use Rattle.ga_chip.specs.Legal.{IsLegal};
ghost use Rattle.ga_chip.specs.Run.{ran, tries_of};
ghost use Rattle.ga_port.specs.Seat.{untried};
ghost use Rattle.ga_group.specs.Plan.{groups_in};
ghost use Rattle.ga_group.specs.Workers.{IsWorkersRun, rounds_of, sides_of_turns};
ghost use Rattle.ga_group.specs.inner.Work.{AreLent, HasAllNodes, HaveGained, names_of};
ghost use Rattle.ga_group.specs.declared.error.RunError.TheVariants.{TooManyTurns};

use crate::alone::work_alone;
use crate::error::RunError;
use crate::gate::Gate;
use crate::halves::work_groups;
use crate::order::{arrange, order_of};
use crate::plan::Plan;
use ga_chip::{Chip, NodePart};
use ga_place::Node;
use ga_port::{Cells, PortSeat};
use std::alloc::{AllocError, Global};
use std::thread::Threads;

/// Runs of this many turns or more are refused.
const TOO_MANY_TURNS: u64 = 1 << 40;

/// Runs a chip by a plan over `turns` turns, counted from 0, and hands it back. In each turn each
/// worker calls the gate and then tries each node of its group once, in the group's order, with the
/// side of the turn: right, down, left, up, and again. Each worker runs in a thread of its own, one
/// of them in the caller's. If no thread can be started, another one works its group. The order of
/// the tries of two workers' nodes is free; a single worker makes its tries in the caller's thread,
/// one round after another. 2^40 turns or more are refused as `TooManyTurns`, and running out of
/// memory as `Memory`, both before any try; the chip then comes back as it was. (Runs of workers
/// are this project's own: profile.)
pub fn run_workers<R: Threads + Sync, G: Gate>(
    rt: &R,
    alloc: Global,
    chip: Chip,
    plan: &Plan,
    turns: u64,
    gate: &G,
) -> Result<Chip, (RunError, Chip)>
    ensures run { IfOk result (λ next. IsWorkersRun chip plan.now turns next) }
    // with one group the order of all tries is known
    ensures alone { IfOk result (λ next. (group : List ℕ) → plan.now ≡ group ∷ []
        → next ≡ ran chip (tries_of (rounds_of group turns))) }
    ensures held { IfOk result (λ next. (name : ℕ) → IsHeld chip name
        → part_of next name ≡ part_of chip name) }
    ensures ledgers { IfOk result (λ next. (run : IsWorkersRun chip plan.now turns next)
        → LedgersGrow chip next (tries_of run.tries)) }
    ensures accepted { OnOk result (turns < 2 ^ 40) }
    ensures refused { IfErr result (λ refused. refused.1 ≡ chip) }
    ensures many { IfErr result (λ refused. refused.0 ≡ TooManyTurns → 2 ^ 40 ≤ turns) }
    ensures too_many { IfErr result (λ refused. 2 ^ 40 ≤ turns → refused.0 ≡ TooManyTurns) }
    ensures legal { IsLegal chip }
{
    chip.legal();
    if turns >= TOO_MANY_TURNS {
        return Err((RunError::TooManyTurns, chip));
    }
    let groups = plan.groups();
    if groups.len() == 1 {
        return Ok(work_alone(chip, gate, &groups[0], turns));
    }
    match open(alloc, &chip, plan) {
        Ok((nodes, cells, seat)) => Ok(run_at(rt, chip, plan, &nodes, cells, seat, turns, gate)),
        Err(_) => Err((RunError::Memory, chip)),
    }
}

/// All that a run allocates: the nodes of a plan in order, and the cells of a chip with their first
/// seat.
fn open(alloc: Global, chip: &Chip, plan: &Plan) -> Result<(Vec<Node>, Cells, PortSeat), AllocError>
    ensures nodes { IfOk result (λ made. made.0.items ≡ concat plan.now) }
    ensures opening { IfOk result (λ made. made.1.opening ≡ chip.now) }
    ensures table { IfOk result (λ made. made.2.table ≡ made.1.table) }
    ensures untried { IfOk result (λ made. made.2.nodes ≡ untried chip.now.parts) }
{
    let nodes = nodes_of(alloc, plan.groups())?;
    let (cells, seat) = Cells::open(alloc, chip)?;
    Ok((nodes, cells, seat))
}

/// The nodes of groups, one group behind the other.
fn nodes_of(alloc: Global, groups: &[Vec<Node>]) -> Result<Vec<Node>, AllocError>
    ensures { IfOk result (λ nodes. nodes.items ≡ concat (groups_in groups.now)) }
{
    let mut nodes = Vec::new(alloc);
    for group in groups {
        nodes.extend_from_slice(group)?;
    }
    Ok(nodes)
}

/// A run at the cells that were opened by a chip. It allocates nothing.
// long: what was opened of a chip, and what its run goes by
fn run_at<R: Threads + Sync, G: Gate>(
    rt: &R,
    chip: Chip,
    plan: &Plan,
    nodes: &[Node],
    cells: Cells,
    seat: PortSeat,
    turns: u64,
    gate: &G,
) -> Chip
    requires nodes { nodes.now ≡ concat plan.now }
    requires opening { cells.opening ≡ chip }
    requires table { seat.table ≡ cells.table }
    requires untried { seat.nodes ≡ untried chip.parts }
    requires turns { turns < 2 ^ 40 }
    ensures { IsWorkersRun chip plan.now turns result }
{
    let (mut parts, _) = chip.into_parts();
    let mut seat = seat;
    work_plan(rt, &cells, gate, turns, plan, nodes, &mut seat, &mut parts);
    let row = cells.close(seat);
    Chip::from_parts(parts, row)
}

/// The turns of all workers of a plan. The parts of all nodes are borrowed with the seat: they are
/// brought into the order of the plan for it, and then back into their own.
// long: what all workers share, and what they borrow
fn work_plan<R: Threads + Sync, G: Gate>(
    rt: &R,
    cells: &Cells,
    gate: &G,
    turns: u64,
    plan: &Plan,
    nodes: &[Node],
    seat: &mut PortSeat,
    parts: &mut [NodePart],
)
    requires nodes { nodes.now ≡ concat plan.now }
    requires all { HasAllNodes parts.old }
    requires table { seat.old.table ≡ cells.now.table }
    requires lent { AreLent parts.old seat.old.nodes }
    requires turns { turns < 2 ^ 40 }
    ensures table { seat.new.table ≡ seat.old.table }
    ensures names { names_of parts.new ≡ names_of parts.old }
    ensures lent { AreLent parts.new seat.new.nodes }
    ensures gained { HaveGained seat.old.nodes seat.new.nodes nodes.now (sides_of_turns turns) }
    ensures known { (name : ℕ) → is_among name nodes.now ≡ true → IsNodeName name }
{
    let groups = plan.groups();
    let order = order_of(parts);
    arrange(parts, nodes);
    let (front, _) = parts.split_at_mut(nodes.len());
    work_groups(rt, cells, gate, turns, 0, groups, nodes, seat, front);
    arrange(parts, &order);
}
