ghost use Rattle.std.specs.Prelude.{◌≡◌, ◌↔◌, ⊤, IfSome, Some};
ghost use Rattle.ga_place.specs.Side.{East, North, South, West, neighbour_of, next_node, side_to};

use crate::node::Node;
use bitflags::{Flag, Flags, bitflag_items};

/// A side of a node, as the chip names it (F18A reference DB001).
///
/// Both nodes give a port that they share one name: east is right in even columns and left in odd
/// ones, and north is down in even rows and up in odd ones.
#[derive(Clone, Copy, Debug, PartialEq, Eq)]
pub enum Side {
    /// The east in even columns, and the west in odd ones.
    Right,
    /// The north in even rows, and the south in odd ones.
    Down,
    /// The west in even columns, and the east in odd ones.
    Left,
    /// The south in even rows, and the north in odd ones.
    Up,
}

/// The four sides, in the order in which they are named and numbered.
pub const SIDES: [Side; 4] = [Side::Right, Side::Down, Side::Left, Side::Up];

/// The neighbour of a node at a side, or `None` if the grid ends there (chip reference DB002).
pub fn neighbour(node: Node, side: Side) -> Option<Node>
    ensures value { result ≡ neighbour_of node side }
    // the neighbour's neighbour at the same side is the node
    ensures back { IfSome result (λ other. neighbour_of other side ≡ Some node) }
{
    let is_even = match side {
        Side::Right | Side::Left => node.column() % 2 == 0,
        Side::Down | Side::Up => node.row() % 2 == 0,
    };
    match (side, is_even) {
        (Side::Right, true) | (Side::Left, false) => east(node),
        (Side::Right, false) | (Side::Left, true) => west(node),
        (Side::Down, true) | (Side::Up, false) => north(node),
        (Side::Down, false) | (Side::Up, true) => south(node),
    }
}

fn east(node: Node) -> Option<Node>
    ensures { result ≡ next_node node East }
{
    if node.column() < 17 {
        Node::new(node.name() + 1)
    } else {
        None
    }
}

fn west(node: Node) -> Option<Node>
    ensures { result ≡ next_node node West }
{
    if node.column() > 0 {
        Node::new(node.name() - 1)
    } else {
        None
    }
}

fn north(node: Node) -> Option<Node>
    ensures { result ≡ next_node node North }
{
    if node.row() < 7 {
        Node::new(node.name() + 100)
    } else {
        None
    }
}

fn south(node: Node) -> Option<Node>
    ensures { result ≡ next_node node South }
{
    if node.row() > 0 {
        Node::new(node.name() - 100)
    } else {
        None
    }
}

/// The side of a node at which another node is its neighbour, or `None` if the two are no
/// neighbours. Seen from the other node the side has the same name.
pub fn side_to(node: Node, other: Node) -> Option<Side>
    ensures value { result ≡ side_to node other }
    ensures exact { (side : Side) → (result ≡ Some side) ↔ (neighbour_of node side ≡ Some other) }
{
    if neighbour(node, Side::Right) == Some(other) {
        Some(Side::Right)
    } else if neighbour(node, Side::Down) == Some(other) {
        Some(Side::Down)
    } else if neighbour(node, Side::Left) == Some(other) {
        Some(Side::Left)
    } else if neighbour(node, Side::Up) == Some(other) {
        Some(Side::Up)
    } else {
        None
    }
}

/// A set of sides, by their bits in a port address: right 80, down 40, left 20 and up 10. Its
/// operations are those of `bitflags::Flags`.
#[derive(Clone, Copy, Debug, PartialEq, Eq)]
pub struct Sides(u8);

bitflag_items! {
    impl Sides: u8 {
        const RIGHT = 0x80;
        const DOWN = 0x40;
        const LEFT = 0x20;
        const UP = 0x10;
    }
}

impl Flags for Sides {
    type Bits = u8;

    ghost exact = { ⊤ };

    ghost use Rattle.std.specs.Prelude.{◌∷◌, [], codes};
    ghost use Rattle.ga_place.specs.Side.{bits_of, side_bit};
    ghost use Rattle.ga_place.specs.declared.side.Side.TheVariants.{Right, Down, Left, Up};

    // the name and the bit of each side
    ghost table = { (codes "RIGHT", side_bit Right) ∷ (codes "DOWN", side_bit Down)
        ∷ (codes "LEFT", side_bit Left) ∷ (codes "UP", side_bit Up) ∷ [] };

    ghost set_of = { bits_of };

    fn flags<'a>() -> &'a [Flag<Sides>] {
        Sides::FLAGS
    }

    fn bits(&self) -> u8 {
        self.0
    }

    fn from_bits_retain(bits: u8) -> Sides {
        Sides(bits)
    }
}

impl Sides {
    ghost use Rattle.std.specs.Prelude.{◌≡◌};
    ghost use Rattle.ga_place.specs.Side.{is_among, one_side};

    /// Whether a side is in the set.
    pub fn has(self, side: Side) -> bool
        ensures { result ≡ is_among side self }
    {
        let bit = match side {
            Side::Right => 0x80,
            Side::Down => 0x40,
            Side::Left => 0x20,
            Side::Up => 0x10,
        };
        self.bits() / bit % 2 == 1
    }

    /// The one side in the set, or `None` if it has none or several.
    pub fn only(self) -> Option<Side>
        ensures { result ≡ one_side self }
    {
        match self.bits() {
            0x80 => Some(Side::Right),
            0x40 => Some(Side::Down),
            0x20 => Some(Side::Left),
            0x10 => Some(Side::Up),
            _ => None,
        }
    }
}
