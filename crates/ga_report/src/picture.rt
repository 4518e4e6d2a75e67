//! The chip as a picture, north at the top.
ghost use Rattle.std.specs.Prelude.{◌≡◌, ◌++◌, OnOk, length, string_bytes};
ghost use Rattle.ga_report.specs.Picture as spec;
ghost use Rattle.ga_report.specs.Picture.{OPENING, drawing, group, label, mark_text, marked, node_arrows, node_box, node_title, picture, side_arrow};
ghost use Rattle.ga_place.specs.Side.{direction_of};

use crate::ending::kind_at_end;
use crate::kind::{Kind, words_of};
use crate::parts::push_parts;
use crate::posted::posted;
use crate::words::push_words;
use ga_chip::Chip;
use ga_place::{Node, SIDES, Side, neighbour};
use ga_profile::NodeTurns;
use ga_word::Word18;
use std::alloc::AllocError;
use std::fmt::Write;

/// Adds the picture of a chip, by what its nodes did, and its pending words.
#[tactic(auto, unfolding(crate::specs::Picture::picture))]
pub(crate) fn push_picture(
    text: &mut String,
    chip: &Chip,
    nodes: &[NodeTurns],
) -> Result<(), AllocError>
    requires { length nodes.now ≡ 144 }
    ensures { OnOk result (string_bytes text.new
        ≡ string_bytes text.old ++ picture chip.now nodes.now) }
{
    push_drawing(text, chip, nodes)?;
    push_words(text, chip)
}

/// Adds the picture of a chip.
#[tactic(auto, unfolding(crate::specs::Picture::drawing))]
fn push_drawing(text: &mut String, chip: &Chip, nodes: &[NodeTurns]) -> Result<(), AllocError>
    requires { length nodes.now ≡ 144 }
    ensures { OnOk result (string_bytes text.new
        ≡ string_bytes text.old ++ drawing chip.now nodes.now) }
{
    push_opening(text)?;
    push_nodes(text, chip, nodes)?;
    text.push_str("</svg></div>\n")
}

/// Adds the heading, and the begin of the picture.
#[tactic(auto, unfolding(crate::specs::Picture::OPENING))]
fn push_opening(text: &mut String) -> Result<(), AllocError>
    ensures { OnOk result (string_bytes text.new ≡ string_bytes text.old ++ OPENING) }
{
    let parts = [
        "<h2>Chip at the end</h2>\n",
        "<p>An arrow is a word that isn't read yet.</p>\n",
        "<div class='chip' tabindex='0'>\n",
        "<svg viewBox='-1 -1 786 314' role='img' aria-label='The nodes'>\n",
    ];
    push_parts(text, &parts)
}

/// Adds all nodes.
#[tactic(auto, unfolding(crate::specs::Picture::nodes))]
fn push_nodes(text: &mut String, chip: &Chip, nodes: &[NodeTurns]) -> Result<(), AllocError>
    requires { length nodes.now ≡ 144 }
    ensures { OnOk result (string_bytes text.new
        ≡ string_bytes text.old ++ spec.nodes chip.now nodes.now) }
{
    for index in 0..144 {
        let node = Node::at(index);
        let kind = kind_at_end(chip, &nodes[index], node);
        push_node(text, chip, node, kind)?;
    }
    Ok(())
}

/// Adds a node.
#[tactic(auto, unfolding(crate::specs::Picture::node_box))]
fn push_node(text: &mut String, chip: &Chip, node: Node, kind: Kind) -> Result<(), AllocError>
    ensures { OnOk result (string_bytes text.new
        ≡ string_bytes text.old ++ node_box chip.now node kind) }
{
    push_group(text, left_of(node), top_of(node))?;
    push_title(text, node, words_of(kind))?;
    push_mark(text, mark_text(kind))?;
    push_label(text, node)?;
    push_arrows(text, chip, node)?;
    text.push_str("</g>\n")
}

/// Adds the name of a node in its box.
#[tactic(auto, unfolding(crate::specs::Picture::label))]
fn push_label(text: &mut String, node: Node) -> Result<(), AllocError>
    ensures { OnOk result (string_bytes text.new ≡ string_bytes text.old ++ label node) }
{
    write!(text, "<text x='18' y='21'>{node}</text>")
}

/// How far from the left a node is, in boxes that are 44 apart.
fn left_of(node: Node) -> u16
    ensures { result ≡ spec.left_of node }
{
    u16::from(node.column()) * 44
}

/// How far from the top a node is, in rows that are 40 apart.
fn top_of(node: Node) -> u16
    ensures { result ≡ spec.top_of node }
{
    280 - u16::from(node.row()) * 40
}

/// Adds the begin of what is drawn at a place.
#[tactic(auto, unfolding(crate::specs::Picture::group))]
fn push_group(text: &mut String, left: u16, top: u16) -> Result<(), AllocError>
    ensures { OnOk result (string_bytes text.new ≡ string_bytes text.old ++ group left top) }
{
    write!(text, "<g transform='translate({left} {top})'>")
}

/// Adds a node, and what it does in words.
#[tactic(auto, unfolding(crate::specs::Picture::node_title))]
fn push_title(text: &mut String, node: Node, words: &str) -> Result<(), AllocError>
    ensures { OnOk result (string_bytes text.new
        ≡ string_bytes text.old ++ node_title node words.now) }
{
    write!(text, "<title>{node} {words}</title>")
}

/// Adds the box of a node, with a mark.
#[tactic(auto, unfolding(crate::specs::Picture::marked))]
fn push_mark(text: &mut String, mark: &str) -> Result<(), AllocError>
    ensures { OnOk result (string_bytes text.new ≡ string_bytes text.old ++ marked mark.now) }
{
    write!(text, "<rect width='36' height='32'/>{mark}")
}

/// A mark of what a node does.
fn mark_text(kind: Kind) -> &'static str
    ensures { result.now ≡ mark_text kind }
{
    match kind {
        Kind::Works => "<path class='works' d='M0 16H36'/>",
        Kind::AwaitsWord => "<path class='word' d='M0 30H36'/>",
        Kind::AwaitsReader => "<path class='reader' d='M0 2H36'/>",
        Kind::Spins => "<path class='spins' d='M0 26H36'/>",
        Kind::Stopped => "<path class='stopped' d='M0 0L36 32M36 0L0 32'/>",
        Kind::Boots => "<path class='boots' d='M0 26H36'/>",
        Kind::Idle => "",
    }
}

/// Adds an arrow for each word of a node that is pending.
#[tactic(auto, unfolding(crate::specs::Picture::node_arrows))]
fn push_arrows(text: &mut String, chip: &Chip, node: Node) -> Result<(), AllocError>
    ensures { OnOk result (string_bytes text.new
        ≡ string_bytes text.old ++ node_arrows chip.now node) }
{
    for side in SIDES {
        push_side_arrow(text, chip, node, side)?;
    }
    Ok(())
}

/// Adds an arrow for the word that a node posted at a side, if it isn't read.
fn push_side_arrow(text: &mut String, chip: &Chip, node: Node, side: Side) -> Result<(), AllocError>
    ensures { OnOk result (string_bytes text.new
        ≡ string_bytes text.old ++ side_arrow chip.now node side) }
{
    match (posted(chip, node, side), neighbour(node, side)) {
        (Some(word), Some(reader)) => push_arrow(text, node, side, word, reader),
        _ => Ok(()),
    }
}

/// Adds the arrow of a word of a node, to its reader.
#[tactic(auto, unfolding(crate::specs::Picture::arrow))]
fn push_arrow(
    text: &mut String,
    node: Node,
    side: Side,
    word: Word18,
    reader: Node,
) -> Result<(), AllocError>
    ensures { OnOk result (string_bytes text.new
        ≡ string_bytes text.old ++ spec.arrow node side word reader) }
{
    text.push_str("<path class='arrow' d='")?;
    text.push_str(arrow_line(node, side))?;
    write!(text, "'><title>{node} to {reader}: {word}</title></path>")
}

/// The line of an arrow from a node to a side.
fn arrow_line(node: Node, side: Side) -> &'static str
    ensures { result.now ≡ spec.arrow_line (direction_of node side) }
{
    let is_east = node.column() % 2 == 0;
    let is_north = node.row() % 2 == 0;
    match side {
        Side::Right if is_east => "M37 11H42M39 8L42 11L39 14",
        Side::Left if !is_east => "M37 11H42M39 8L42 11L39 14",
        Side::Right | Side::Left => "M-1 21H-6M-3 18L-6 21L-3 24",
        Side::Down if is_north => "M12 -1V-6M9 -3L12 -6L15 -3",
        Side::Up if !is_north => "M12 -1V-6M9 -3L12 -6L15 -3",
        Side::Down | Side::Up => "M24 33V38M21 35L24 38L27 35",
    }
}
