//! What lies between two neighbours.
ghost use Rattle.std.specs.Prelude.{◌≡◌};
ghost use Rattle.ga_map.specs.Link as spec;
ghost use Rattle.ga_map.specs.Link.{east_text, south_text};

use crate::posted::{offered, posted};
use ga_chip::Chip;
use ga_place::{Node, Side, neighbour};

/// What lies between a node and its neighbour at a side.
#[derive(Clone, Copy)]
pub(crate) enum Link {
    /// No word went here.
    Unused,
    /// Words went here, and none is pending.
    Used,
    /// A word of the node is pending.
    Ahead,
    /// A word of the neighbour is pending.
    Back,
    /// A word of each is pending.
    Both,
}

/// What lies between a node and its neighbour at a side, if it has one there.
pub(crate) fn link_at(chip: &Chip, node: Node, side: Side) -> Link
    ensures { result ≡ spec.link_at chip.now node side }
{
    let ahead = posted(chip, node, side).is_some();
    let back = offered(chip, node, side).is_some();
    match (ahead, back) {
        (true, true) => Link::Both,
        (true, false) => Link::Ahead,
        (false, true) => Link::Back,
        (false, false) => quiet(chip, node, side),
    }
}

/// The same if no word is pending.
fn quiet(chip: &Chip, node: Node, side: Side) -> Link
    ensures { result ≡ spec.quiet chip.now node side }
{
    if has_written(chip, node, side) || was_written(chip, node, side) {
        Link::Used
    } else {
        Link::Unused
    }
}

/// Whether a node has written words at a side.
fn has_written(chip: &Chip, node: Node, side: Side) -> bool
    ensures { result ≡ spec.has_written chip.now node side }
{
    chip.ledger(node, side).written != 0
}

/// Whether the neighbour of a node at a side has.
fn was_written(chip: &Chip, node: Node, side: Side) -> bool
    ensures { result ≡ spec.was_written chip.now node side }
{
    match neighbour(node, side) {
        Some(other) => has_written(chip, other, side),
        None => false,
    }
}

/// A link from a node to the one east of it.
pub(crate) fn east_text(link: Link) -> &'static str
    ensures { result.now ≡ east_text link }
{
    match link {
        Link::Unused => " ",
        Link::Used => "-",
        Link::Ahead => ">",
        Link::Back => "<",
        Link::Both => "X",
    }
}

/// A link from a node to the one south of it.
pub(crate) fn south_text(link: Link) -> &'static str
    ensures { result.now ≡ south_text link }
{
    match link {
        Link::Unused => " ",
        Link::Used => "|",
        Link::Ahead => "v",
        Link::Back => "^",
        Link::Both => "X",
    }
}

/// The side of a node that faces east.
pub(crate) fn east_side(node: Node) -> Side
    ensures { result ≡ spec.east_side node }
{
    if node.column() % 2 == 0 {
        Side::Right
    } else {
        Side::Left
    }
}

/// The side of a node that faces south.
pub(crate) fn south_side(node: Node) -> Side
    ensures { result ≡ spec.south_side node }
{
    if node.row() % 2 == 0 {
        Side::Up
    } else {
        Side::Down
    }
}
