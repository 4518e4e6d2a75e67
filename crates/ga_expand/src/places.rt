//! The sides of a node by the place where it is.
ghost use Rattle.std.specs.Prelude.{◌≡◌, option_map};
ghost use Rattle.ga_expand.specs.Places as model;
ghost use Rattle.ga_expand.specs.inner.Places.{direction_of};
ghost use Rattle.ga_place.specs.Side.{next_node};

use crate::error::ExpandErrorKind;
use ga_place::{Node, Side, port_address, side_to};
use ga_word::Word18;

/// A direction on the grid: columns count from west to east, and rows from south to north.
#[derive(Clone, Copy)]
pub(crate) enum Direction {
    North,
    East,
    South,
    West,
}

impl Direction {
    /// The direction that a token names.
    pub(crate) fn named(text: &[u8]) -> Option<Self>
        ensures { option_map direction_of result ≡ model.direction_named text.now }
    {
        match text {
            b"north" => Some(Direction::North),
            b"east" => Some(Direction::East),
            b"south" => Some(Direction::South),
            b"west" => Some(Direction::West),
            _ => None,
        }
    }
}

/// The next node in a direction, or `None` if the grid ends there.
fn next_node(node: Node, direction: Direction) -> Option<Node>
    ensures { result ≡ next_node node (direction_of direction) }
{
    match direction {
        Direction::North if node.row() < 7 => Node::new(node.name() + 100),
        Direction::East if node.column() < 17 => Node::new(node.name() + 1),
        Direction::South if node.row() > 0 => Node::new(node.name() - 100),
        Direction::West if node.column() > 0 => Node::new(node.name() - 1),
        _ => None,
    }
}

/// The address of the port of a node in a direction (chip reference DB002).
pub(crate) fn port_towards(node: Node, direction: Direction) -> Result<Word18, ExpandErrorKind>
    ensures { result ≡ model.port_towards node (direction_of direction) }
{
    match next_node(node, direction) {
        Some(other) => port_of(side_to(node, other)),
        None => Err(ExpandErrorKind::NoNeighbour),
    }
}

/// The address of the port of a node towards the one that a token names.
pub(crate) fn port_named(node: Node, text: &[u8]) -> Result<Word18, ExpandErrorKind>
    ensures { result ≡ model.port_named node text.now }
{
    match Node::from_digits(text) {
        Some(other) => port_of(side_to(node, other)),
        None => Err(ExpandErrorKind::BadNode),
    }
}

/// The address of the port of a side.
fn port_of(side: Option<Side>) -> Result<Word18, ExpandErrorKind>
    ensures { result ≡ model.port_of side }
{
    match side {
        Some(side) => {
            Word18::new(u32::from(port_address(side))).ok_or(ExpandErrorKind::NoNeighbour)
        }
        None => Err(ExpandErrorKind::NoNeighbour),
    }
}
