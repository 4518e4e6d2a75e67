ghost use Rattle.std.specs.Prelude.{◌≡◌, ℕ, ◌<◌, ◌↔◌, IfSome, IsSome, true};
ghost use Rattle.ga_place.specs.Cell.{cell_of};
ghost use Rattle.ga_place.specs.Side.{has_side};
ghost use Rattle.ga_place.specs.inner.CellNumber.{cells_before, rank};

use crate::node::Node;
use crate::side::{Side, neighbour};
use std::marker::Model;

/// One of the 524 one-way cells between neighbours. Each of the 262 shared ports has two: each of
/// its nodes writes one, and the other node reads it.
///
/// Cells are numbered from 0 to 523 by their writer's name, and those of one writer by side: right,
/// down, left, up. A contract sees a cell as its number.
#[derive(Clone, Copy, Debug, PartialEq, Eq)]
pub struct CellId {
    number: u16,
}

impl Model for CellId {
    ghost Value = { ℕ };

    ghost view = { λ cell. cell.number };

    ghost invariant = { λ cell. cell.number < 524 };

    ghost inverse = { λ n. record { number = n } };
}

impl CellId {
    /// The number of the cell, from 0 to 523.
    pub fn index(self) -> usize
        ensures value { result ≡ self }
        ensures bound { result < 524 }
    {
        usize::from(self.number)
    }
}

/// The cell that a node writes at a side, or `None` if it has no neighbour there. No two cells have
/// one number.
#[tactic(auto, using(crate::proofs::CellNumbers::no_cell, crate::proofs::CellNumbers::cell_there))]
pub fn cell(node: Node, side: Side) -> Option<CellId>
    ensures number { result ≡ cell_of node side }
    ensures there { IsSome result ↔ (has_side node side ≡ true) }
    // a cell has one writer, at one side
    ensures alone { IfSome result (λ number. (name : ℕ) (at : Side) → cell_of name at ≡ Some number
        → (name ≡ node) × (at ≡ side)) }
{
    if neighbour(node, side).is_none() {
        return None;
    }
    let number = cells_before(node) + rank(node, side);
    Some(CellId { number })
}

/// How many cells have a writer of a lower name: 70 in each row but the first, which has 52, and
/// then those of the nodes to the west.
fn cells_before(node: Node) -> u16
    ensures value { result ≡ cells_before node }
{
    let row = u16::from(node.row());
    let column = u16::from(node.column());
    let in_rows = if row == 0 { 0 } else { 52 + 70 * (row - 1) };
    let in_each = if neighbour(node, Side::Up).is_some() {
        3
    } else {
        2
    };
    // All nodes to the west but the first have a left side too.
    in_rows + column * in_each + column.saturating_sub(1)
}

/// How many cells of the node come before the one at a side that it has.
fn rank(node: Node, side: Side) -> u16
    ensures value { result ≡ rank node side }
{
    match side {
        Side::Right => 0,
        Side::Down => 1,
        Side::Left => 2,
        Side::Up => {
            if neighbour(node, Side::Left).is_some() {
                3
            } else {
                2
            }
        }
    }
}
