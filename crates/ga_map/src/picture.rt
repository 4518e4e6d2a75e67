//! The nodes of a chip as a picture, north at the top.
ghost use Rattle.std.specs.Prelude.{◌≡◌, ◌++◌, ◌<◌, ◌-◌, OnOk, string_bytes};
ghost use Rattle.std.specs.List.{flat_map, range_with_len};
ghost use Rattle.ga_map.specs.Picture.{LEGEND, line_of, node_cell, node_line, picture, row_cells, row_text, shown_line, south_cell, south_line};

use crate::link::{east_side, east_text, link_at, south_side, south_text};
use crate::mark::{mark_of, mark_text};
use ga_chip::Chip;
use ga_place::Node;
use std::alloc::{AllocError, Global};
use std::fmt::Write;

/// Adds the picture: the numbers of the columns, and the rows, the northern one first.
#[tactic(auto, unfolding(crate::specs::Picture::picture))]
pub(crate) fn push_picture(text: &mut String, alloc: Global, chip: &Chip) -> Result<(), AllocError>
    ensures { OnOk result (string_bytes text.new ≡ string_bytes text.old ++ picture chip.now) }
{
    text.push_str("    0   1   2   3   4   5   6   7   8   9  10  11  12  13  14  15  16  17\n")?;
    push_rows(text, alloc, chip)
}

/// Adds all rows.
fn push_rows(text: &mut String, alloc: Global, chip: &Chip) -> Result<(), AllocError>
    ensures { OnOk result (string_bytes text.new ≡ string_bytes text.old
        ++ flat_map (λ count. row_text chip.now (7 - count)) (range_with_len 0 8)) }
{
    for count in 0..8 {
        push_row(text, alloc, chip, 7 - count)?;
    }
    Ok(())
}

/// Adds a row, with the links below it.
fn push_row(text: &mut String, alloc: Global, chip: &Chip, row: usize) -> Result<(), AllocError>
    requires { row < 8 }
    ensures { OnOk result (string_bytes text.new ≡ string_bytes text.old
        ++ row_text chip.now row) }
{
    push_node_line(text, alloc, chip, row)?;
    push_south_line(text, alloc, chip, row)
}

/// Adds the nodes of a row from west to east, behind its number.
fn push_node_line(
    text: &mut String,
    alloc: Global,
    chip: &Chip,
    row: usize,
) -> Result<(), AllocError>
    requires { row < 8 }
    ensures { OnOk result (string_bytes text.new ≡ string_bytes text.old
        ++ node_line chip.now row) }
{
    let mut line = String::new(alloc);
    write!(line, "{row}  ")?;
    push_nodes(&mut line, chip, row)?;
    push_shown(text, line.as_str())
}

/// Adds the links of a row to the one below it.
fn push_south_line(
    text: &mut String,
    alloc: Global,
    chip: &Chip,
    row: usize,
) -> Result<(), AllocError>
    requires { row < 8 }
    ensures { OnOk result (string_bytes text.new ≡ string_bytes text.old
        ++ south_line chip.now row) }
{
    let mut line = String::new(alloc);
    line.push_str("   ")?;
    push_souths(&mut line, chip, row)?;
    push_shown(text, line.as_str())
}

/// Adds the nodes of a row.
fn push_nodes(line: &mut String, chip: &Chip, row: usize) -> Result<(), AllocError>
    requires { row < 8 }
    ensures { OnOk result (string_bytes line.new ≡ string_bytes line.old
        ++ row_cells (node_cell chip.now) row) }
{
    for column in 0..18 {
        push_node(line, chip, Node::at(row * 18 + column))?;
    }
    Ok(())
}

/// Adds the links of a row to the one below it.
fn push_souths(line: &mut String, chip: &Chip, row: usize) -> Result<(), AllocError>
    requires { row < 8 }
    ensures { OnOk result (string_bytes line.new ≡ string_bytes line.old
        ++ row_cells (south_cell chip.now) row) }
{
    for column in 0..18 {
        push_south(line, chip, Node::at(row * 18 + column))?;
    }
    Ok(())
}

/// Adds a node, with the link to the next one of its row.
fn push_node(line: &mut String, chip: &Chip, node: Node) -> Result<(), AllocError>
    ensures { OnOk result (string_bytes line.new ≡ string_bytes line.old
        ++ node_cell chip.now node) }
{
    line.push_str(mark_text(mark_of(chip, node)))?;
    line.push_str(east_text(link_at(chip, node, east_side(node))))
}

/// Adds the link to the node below a node, under the middle of its mark.
fn push_south(line: &mut String, chip: &Chip, node: Node) -> Result<(), AllocError>
    ensures { OnOk result (string_bytes line.new ≡ string_bytes line.old
        ++ south_cell chip.now node) }
{
    line.push_str(" ")?;
    line.push_str(south_text(link_at(chip, node, south_side(node))))?;
    line.push_str("  ")
}

/// Adds a line without the blanks at its end, if anything is left of it.
fn push_shown(text: &mut String, line: &str) -> Result<(), AllocError>
    ensures { OnOk result (string_bytes text.new ≡ string_bytes text.old
        ++ shown_line line.now) }
{
    push_line(text, line.trim_ascii_end())?;
    Ok(())
}

/// Adds a line, unless it is empty.
fn push_line(text: &mut String, line: &str) -> Result<(), AllocError>
    ensures { OnOk result (string_bytes text.new ≡ string_bytes text.old ++ line_of line.now) }
{
    if line.is_empty() {
        return Ok(());
    }
    text.push_str(line)?;
    text.push_str("\n")?;
    Ok(())
}

/// Adds what the signs mean.
#[tactic(auto, unfolding(crate::specs::Picture::LEGEND))]
pub(crate) fn push_legend(text: &mut String) -> Result<(), AllocError>
    ensures { OnOk result (string_bytes text.new ≡ string_bytes text.old ++ LEGEND) }
{
    text.push_str("[#] works  [?] waits for a word  [!] waits for its word to be read\n")?;
    text.push_str("[ ] idle  [~] spins  [=] held  [x] stopped   .  not started\n")?;
    text.push_str("- | words went here  > < v ^ a word is pending and goes this way  X two words\n")
}
