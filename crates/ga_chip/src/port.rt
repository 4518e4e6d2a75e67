ghost use Rattle.std.specs.Prelude.{◌≡◌};
ghost use Rattle.ga_chip.specs.inner.Port.{port_at, port_of, ports_of};

use ga_place::{CellId, Node, Side, cell, neighbour};

/// What a node shares with its neighbour at a side.
#[derive(Clone, Copy)]
pub(crate) struct Port {
    /// The cell that the node reads.
    pub reads: CellId,
    /// The cell that it writes.
    pub writes: CellId,
    /// The neighbour's place in order of name.
    pub neighbour: u8,
}

/// The ports of a node, one for each side at which it has a neighbour.
#[derive(Clone, Copy)]
pub(crate) struct Ports {
    // In the order of the sides.
    by_side: [Option<Port>; 4],
}

impl Ports {
    /// The ports of a node.
    pub(crate) fn new(node: Node) -> Self
        ensures { result ≡ ports_of node }
    {
        Ports {
            by_side: [
                port_of(node, Side::Right),
                port_of(node, Side::Down),
                port_of(node, Side::Left),
                port_of(node, Side::Up),
            ],
        }
    }

    /// The port at a side.
    #[inline(always)]
    pub(crate) fn at(&self, side: Side) -> Option<Port>
        ensures { result ≡ port_at side self.now }
    {
        self.by_side[side as usize]
    }
}

/// The port of a node at a side.
fn port_of(node: Node, side: Side) -> Option<Port>
    ensures { result ≡ port_of node side }
{
    let other = neighbour(node, side)?;
    Some(Port {
        reads: cell(other, side)?,
        writes: cell(node, side)?,
        neighbour: other.index() as u8,
    })
}
