//! The work of one worker: tries of its nodes, turn after turn.
//!
//! A node makes its own steps ahead, since these have to do with no other node: in a turn that it
//! has come past, its try is entered alone.
//!
//! A node that waits is tried in each turn too, and such tries come often. So for a node that waits
//! for a word, is held or is stopped, a worker keeps the cells at which its tries look: then a try
//! is one look at a cell, as long as nothing is there.
ghost use Rattle.std.specs.Prelude.{◌≡◌, ℕ, ◌+◌, ◌-◌, ◌≤◌, ◌<◌, ◌^◌, [], ◌∷◌, None, Some, false, get_or, length, true};
ghost use Rattle.ga_chip.specs.Asks.{asked_of};
ghost use Rattle.ga_chip.specs.Run as runs;
ghost use Rattle.ga_port.specs.Seat.{tried_in};
ghost use Rattle.ga_group.specs.Workers.{sides_of_turns};
ghost use Rattle.ga_group.specs.inner.Tried.{HasTried, HasTurned, is_move, left, steps_in, sum_from};
ghost use Rattle.ga_group.specs.inner.Work.{AreKnown, HasWorked, HasWorkedBy, IsAheadBy, IsKnown, IsLent, IsReady, IsReadyBy, LooksAt};

use crate::gate::Gate;
use ga_chip::{Asks, Looks, NodePart, Outcome, Try, side_of_turn};
use ga_place::{CellId, Side};
use ga_port::{Cells, PortSeat};

/// How many turns a node makes at once, at most, if it does its own work.
const WINDOW: u64 = 128;

/// The tries of a worker over a number of turns: in each it calls the gate, and then tries each of
/// its nodes once, in order.
pub(crate) fn work_turns<G: Gate>(
    cells: &Cells,
    gate: &G,
    worker: u32,
    turns: u64,
    seat: &mut PortSeat,
    parts: &mut [NodePart],
)
    requires ready { IsReady cells.now.table seat.old parts.old }
    // there is room for 144 nodes, and 2^40 turns of them make less than 2^64 moves
    requires few { length parts.old ≤ 144 }
    requires turns { turns < 2 ^ 40 }
    ensures { HasWorked seat.old seat.new parts.old parts.new (sides_of_turns turns) }
{
    let mut looks: [Option<Looks>; 144] = [None; 144];
    let mut until = [0; 144];
    let mut moved = 0;
    for turn in 0..turns {
        gate.turn(worker, turn, moved);
        moved += work_turn(cells, seat, parts, &mut looks, &mut until, turn, turns);
    }
}

/// The tries of all nodes in a turn. `until` has up to the end of how many turns each node has
/// come. Answers how many tries were `Moved`.
#[inline(never)]
fn work_turn(
    cells: &Cells,
    seat: &mut PortSeat,
    parts: &mut [NodePart],
    looks: &mut [Option<Looks>],
    until: &mut [u64],
    turn: u64,
    end: u64,
) -> u64
    requires ready { IsReadyBy (left until.old turn 0) cells.now.table seat.old parts.old }
    requires known { AreKnown parts.old looks.old }
    requires enough { (length parts.old ≤ length looks.old)
        × (length parts.old ≤ length until.old) }
    requires turn { (turn < end) × (end < 2 ^ 40) }
    requires within { (at : ℕ) → get_or until.old at 0 ≤ end }
    ensures worked { HasWorkedBy (left until.new (turn + 1) 0) seat.old seat.new parts.old
        parts.new (runs.side_of_turn turn ∷ []) }
    ensures known { AreKnown parts.new looks.new }
    ensures same { (length looks.new ≡ length looks.old)
        × (length until.new ≡ length until.old) }
    ensures within { (at : ℕ) → get_or until.new at 0 ≤ end }
    // each try that was `Moved` is a step more of its node; steps ahead aren't tries yet
    ensures moved { steps_in parts.new + sum_from (left until.old turn 0) 0 (length parts.old)
        ≡ steps_in parts.old + result
        + sum_from (left until.new (turn + 1) 0) 0 (length parts.old) }
    ensures few { result ≤ length parts.old }
{
    let mut moved = 0;
    for (index, part) in parts.iter_mut().enumerate() {
        if try_node(
            cells,
            seat,
            part,
            &mut looks[index],
            &mut until[index],
            turn,
            end,
        ) {
            moved += 1;
        }
    }
    moved
}

/// The try of a node in a turn, at the cells. If it is a step of the node's own, the node goes
/// ahead before the end of the turns. Answers whether the try was `Moved`.
#[inline(always)]
fn try_node(
    cells: &Cells,
    seat: &mut PortSeat,
    part: &mut NodePart,
    looks: &mut Option<Looks>,
    until: &mut u64,
    turn: u64,
    end: u64,
) -> bool
    requires own { seat.old.table ≡ cells.now.table }
    requires ahead { IsAheadBy (until.old - turn) part.old seat.old.nodes }
    requires known { IsKnown part.old looks.old }
    requires turn { (turn < end) × (end < 2 ^ 40) }
    requires within { until.old ≤ end }
    ensures own { seat.new.table ≡ seat.old.table }
    ensures node { part.new.state.node ≡ part.old.state.node }
    ensures known { IsKnown part.new looks.new }
    ensures within { until.new ≤ end }
    ensures turned { HasTurned turn until.old until.new
        (record { node = part.old.state.node; side = runs.side_of_turn turn }) seat.old.nodes
        seat.new.nodes part.old part.new result }
{
    let node = part.node();
    let side = side_of_turn(turn);
    if *until > turn {
        cells.own(seat, Try { node, side });
        return true;
    }
    let made = part.run_own(WINDOW.min(end - turn));
    if made == 0 {
        return try_other(cells, seat, part, looks, side);
    }
    *until = turn + made;
    cells.own(seat, Try { node, side });
    true
}

/// One try of a node that names a side, by a node that does no work of its own. Answers whether it
/// was `Moved`. (It is a cold function of its own, so that the code of a node's own work is one
/// piece, and the next node's follows without a jump.)
#[cold]
#[inline(never)]
fn try_other(
    cells: &Cells,
    seat: &mut PortSeat,
    part: &mut NodePart,
    looks: &mut Option<Looks>,
    side: Side,
) -> bool
    requires own { seat.old.table ≡ cells.now.table }
    requires lent { IsLent part.old seat.old.nodes }
    requires known { IsKnown part.old looks.old }
    ensures own { seat.new.table ≡ seat.old.table }
    ensures node { part.new.state.node ≡ part.old.state.node }
    ensures known { IsKnown part.new looks.new }
    ensures tried { HasTried (record { node = part.old.state.node; side = side })
        seat.old.nodes seat.new.nodes part.old part.new result }
{
    let node = part.node();
    let Some(known) = looks else {
        return try_far(cells, seat, part, looks, Try { node, side });
    };
    if finds_nothing(cells, seat, Try { node, side }, known.at(side)) {
        return false;
    }
    try_far(cells, seat, part, looks, Try { node, side })
}

/// One try of a node by all that it may ask for. Afterwards the cells at which the node's tries
/// look are known, if it waits for a word, is held or is stopped.
#[inline(never)]
fn try_far(
    cells: &Cells,
    seat: &mut PortSeat,
    part: &mut NodePart,
    looks: &mut Option<Looks>,
    what: Try,
) -> bool
    requires own { seat.old.table ≡ cells.now.table }
    requires lent { IsLent part.old seat.old.nodes }
    requires node { what.node ≡ part.old.state.node }
    ensures own { seat.new.table ≡ seat.old.table }
    ensures node { part.new.state.node ≡ part.old.state.node }
    ensures known { IsKnown part.new looks.new }
    ensures tried { HasTried what seat.old.nodes seat.new.nodes part.old part.new result }
{
    let is_moved = try_asked(cells, seat, part, what) == Outcome::Moved;
    *looks = if is_moved { None } else { part.looks() };
    is_moved
}

/// A look of a try at this cell, or at none. If it finds nothing, this was the try, and the answer
/// is true; else no try was made.
#[inline(always)]
fn finds_nothing(cells: &Cells, seat: &mut PortSeat, what: Try, look: Option<CellId>) -> bool
    requires own { seat.old.table ≡ cells.now.table }
    requires looks { LooksAt seat.old.nodes what look }
    ensures own { seat.new.table ≡ seat.old.table }
    ensures tried { result ≡ true → seat.new.nodes ≡ tried_in seat.old.nodes what None }
    ensures same { result ≡ false → seat.new.nodes ≡ seat.old.nodes }
{
    match look {
        Some(cell) => !cells.poll(seat, what, cell),
        None => {
            cells.own(seat, what);
            true
        }
    }
}

/// One try of a node, at the cells: what it asks for is done there, and then in the node's part.
#[inline(always)]
fn try_asked(cells: &Cells, seat: &mut PortSeat, part: &mut NodePart, what: Try) -> Outcome
    requires own { seat.old.table ≡ cells.now.table }
    requires lent { IsLent part.old seat.old.nodes }
    requires node { what.node ≡ part.old.state.node }
    ensures own { seat.new.table ≡ seat.old.table }
    ensures node { part.new.state.node ≡ part.old.state.node }
    ensures tried { HasTried what seat.old.nodes seat.new.nodes part.old part.new
        (is_move result) }
{
    match part.asks(what.side) {
        Asks::Own => {
            cells.own(seat, what);
            part.done_own()
        }
        Asks::Post(to, cell, word) => {
            cells.post(seat, what, cell, word);
            part.done_post(to)
        }
        Asks::Take(from, cell) => take_word(cells, seat, part, what, from, cell),
        Asks::Check(to, cell) => {
            let read = cells.check(seat, what, cell);
            part.done_check(to, read)
        }
        Asks::Nothing(outcome) => {
            cells.own(seat, what);
            outcome
        }
    }
}

/// One try of a node that asks to take the word of a cell. If none is there, it only looks, so that
/// it doesn't hold up the node that is to post it.
#[inline(always)]
fn take_word(
    cells: &Cells,
    seat: &mut PortSeat,
    part: &mut NodePart,
    what: Try,
    from: Side,
    cell: CellId,
) -> Outcome
    requires own { seat.old.table ≡ cells.now.table }
    requires lent { IsLent part.old seat.old.nodes }
    requires node { what.node ≡ part.old.state.node }
    requires asks { asked_of part.old what.side ≡ Asks.Take from cell }
    ensures own { seat.new.table ≡ seat.old.table }
    ensures node { part.new.state.node ≡ part.old.state.node }
    ensures tried { HasTried what seat.old.nodes seat.new.nodes part.old part.new
        (is_move result) }
{
    // The checker refuses a second use of `what` by value.
    let look = what;
    if !cells.poll(seat, look, cell) {
        return Outcome::Waits;
    }
    let found = cells.take(seat, what, cell);
    part.done_take(from, found)
}
