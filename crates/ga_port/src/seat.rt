use atomic_table::Seat;
use ga_chip::NodePart;
use ga_place::Side;
use std::collections::LinkedList;
use std::marker::Model;

/// What a seat has of one of its nodes, only for contracts: the node's part of the chip, and the
/// sides that its tries have named so far. No value of it is made.
pub struct Holding {
    pub part: NodePart,
    pub sides: LinkedList<Side>,
}

// The nodes in order of name: what the seat has of each that is one of its own.
pub(crate) type Nodes = LinkedList<Option<Holding>>;

/// A seat at the cells, with the nodes that may be tried by it. Each node is at one seat. It has no
/// bytes, and only `Cells::gather` and `Cells::close` consume it. A contract sees the cells that it
/// belongs to, and what it has of its nodes.
pub struct PortSeat {
    pub(crate) seat: Seat<u64, Nodes>,
}

impl Model for PortSeat {
    ghost use Rattle.std.specs.Prelude.{◌≡◌, []};
    ghost use Rattle.ga_port.specs.Seat.{SeatView};

    ghost Value = { SeatView };

    ghost view = { λ it. record { table = it.seat.table_id; nodes = it.seat.me.0 } };

    ghost invariant = { λ it. it.seat.me.1 ≡ [] };
}
