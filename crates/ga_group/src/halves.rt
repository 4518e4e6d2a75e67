//! Groups of nodes in parallel, each worked by a thread of its own: the groups are split into
//! halves, and these again.
ghost use Rattle.std.specs.Prelude.{◌≡◌, ◌+◌, ◌<◌, ◌≤◌, ◌^◌, ℕ, length};
ghost use Rattle.std.specs.List.{concat};
ghost use Rattle.std.specs.Thread.{IsSync};
ghost use Rattle.ga_group.specs.Plan.{groups_in};
ghost use Rattle.ga_group.specs.Workers.{sides_of_turns};
ghost use Rattle.ga_group.specs.inner.Work.{AreGrouped, HasWorked, IsReady};

use crate::gate::Gate;
use crate::work::work_turns;
use ga_chip::NodePart;
use ga_place::Node;
use ga_port::{Cells, PortSeat};
use std::thread::{Threads, join_mut};

/// The turns of some workers, of which the first has this number. Each works its group in a thread
/// of its own. If no thread can be started, the group is worked by the thread that asked for it.
/// The nodes are in the order of the groups, and so are the parts, which are borrowed with the
/// seat.
// long: what all workers share, and what these have of their own
#[cycle(groups)]
pub(crate) fn work_groups<R: Threads + Sync, G: Gate>(
    rt: &R,
    cells: &Cells,
    gate: &G,
    turns: u64,
    first: u32,
    groups: &[Vec<Node>],
    nodes: &[Node],
    seat: &mut PortSeat,
    parts: &mut [NodePart],
)
    requires grouped { AreGrouped groups.now nodes.now parts.old }
    requires ready { IsReady cells.now.table seat.old parts.old }
    requires workers { first + length groups.now < 2 ^ 32 }
    requires turns { turns < 2 ^ 40 }
    ensures { HasWorked seat.old seat.new parts.old parts.new (sides_of_turns turns) }
{
    if groups.len() < 2 {
        work_turns(cells, gate, first, turns, seat, parts);
        return;
    }
    let (left, right) = groups.split_at(groups.len() / 2);
    let count = nodes_in(left);
    let (left_nodes, right_nodes) = nodes.split_at(count);
    let (left_parts, right_parts) = parts.split_at_mut(count);
    let mut other = cells.share(seat, right_nodes);
    both_halves(
        rt,
        cells,
        gate,
        turns,
        first,
        left,
        left_nodes,
        seat,
        left_parts,
        right,
        right_nodes,
        &mut other,
        right_parts,
    );
    cells.gather(seat, other);
}

/// Both halves of some workers in parallel. Those of the left half have the numbers from the first
/// on, and those of the right half the numbers behind them.
// long: what all workers share, and what each half has of its own
#[cycle(groups)]
fn both_halves<R: Threads + Sync, G: Gate>(
    rt: &R,
    cells: &Cells,
    gate: &G,
    turns: u64,
    first: u32,
    left: &[Vec<Node>],
    left_nodes: &[Node],
    seat: &mut PortSeat,
    left_parts: &mut [NodePart],
    right: &[Vec<Node>],
    right_nodes: &[Node],
    other: &mut PortSeat,
    right_parts: &mut [NodePart],
)
    requires some { (0 < length left.now) × (0 < length right.now) }
    requires front { AreGrouped left.now left_nodes.now left_parts.old }
    requires back { AreGrouped right.now right_nodes.now right_parts.old }
    requires ready { IsReady cells.now.table seat.old left_parts.old }
    requires other { IsReady cells.now.table other.old right_parts.old }
    requires workers { first + length left.now + length right.now < 2 ^ 32 }
    requires turns { turns < 2 ^ 40 }
    ensures front { HasWorked seat.old seat.new left_parts.old left_parts.new
        (sides_of_turns turns) }
    ensures back { HasWorked other.old other.new right_parts.old right_parts.new
        (sides_of_turns turns) }
{
    let next = first + left.len() as u32;
    let mut front = ||
        requires { IsSync R.row × IsSync G.row × (first + length left.now < 2 ^ 32)
            × (turns < 2 ^ 40)
            × AreGrouped left.now left_nodes.now left_parts.now
            × IsReady cells.now.table seat.now left_parts.now }
        ensures { HasWorked seat.entry.now seat.exit.now left_parts.entry.now left_parts.exit.now
            (sides_of_turns turns) }
    {
        work_groups(
            rt, cells, gate, turns, first, left, left_nodes, seat, left_parts,
        )
    };
    let mut back = ||
        requires { IsSync R.row × IsSync G.row × (next + length right.now < 2 ^ 32)
            × (turns < 2 ^ 40)
            × AreGrouped right.now right_nodes.now right_parts.now
            × IsReady cells.now.table other.now right_parts.now }
        ensures { HasWorked other.entry.now other.exit.now right_parts.entry.now
            right_parts.exit.now (sides_of_turns turns) }
    {
        work_groups(
            rt,
            cells,
            gate,
            turns,
            next,
            right,
            right_nodes,
            other,
            right_parts,
        )
    };
    join_mut(rt, &mut front, &mut back);
}

fn nodes_in(groups: &[Vec<Node>]) -> usize
    requires { length (concat (groups_in groups.now)) ≤ 144 }
    ensures { result ≡ length (concat (groups_in groups.now)) }
{
    let mut count = 0;
    for group in groups {
        count += group.len();
    }
    count
}
