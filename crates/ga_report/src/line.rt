//! A row of the timeline as lines.
ghost use Rattle.std.specs.Prelude.{◌≡◌, ◌++◌, IfOk, OnOk, string_bytes};
ghost use Rattle.ga_report.specs.Line as spec;
ghost use Rattle.ga_report.specs.Line.{edge, edge_text, level_of, line_if, line_of, lines, path_data};

use crate::kind::{KINDS, Kind, class_of, is_same};
use std::alloc::{AllocError, Global};
use std::fmt::Write;

/// Adds a path for each kind that a row shows.
#[tactic(auto, unfolding(crate::specs::Line::lines))]
pub(crate) fn push_lines(text: &mut String, alloc: Global, row: &[Kind]) -> Result<(), AllocError>
    ensures { OnOk result (string_bytes text.new ≡ string_bytes text.old ++ lines row.now) }
{
    for kind in KINDS {
        push_line(text, alloc, row, kind)?;
    }
    Ok(())
}

/// Adds the path of a kind, if a row shows it.
fn push_line(text: &mut String, alloc: Global, row: &[Kind], kind: Kind) -> Result<(), AllocError>
    ensures { OnOk result (string_bytes text.new
        ≡ string_bytes text.old ++ line_of row.now kind) }
{
    let parts = path_data(alloc, row, kind)?;
    push_line_if(text, kind, parts.as_str())
}

/// Adds the path of a kind, if it has a part.
#[tactic(auto, unfolding(crate::specs::Line::line_with))]
fn push_line_if(text: &mut String, kind: Kind, parts: &str) -> Result<(), AllocError>
    ensures { OnOk result (string_bytes text.new
        ≡ string_bytes text.old ++ line_if kind parts.now) }
{
    if parts.is_empty() {
        return Ok(());
    }
    text.push_str("<path class='")?;
    text.push_str(class_of(kind))?;
    text.push_str("' d='")?;
    text.push_str(parts)?;
    text.push_str("'/>")
}

/// The parts of a row that show a kind.
#[tactic(auto, unfolding(crate::specs::Line::path_data))]
fn path_data(alloc: Global, row: &[Kind], kind: Kind) -> Result<String, AllocError>
    ensures { IfOk result (λ parts. string_bytes parts ≡ path_data row.now kind) }
{
    let mut parts = String::new(alloc);
    for column in 0..row.len() + 1 {
        push_edge(&mut parts, row, kind, column)?;
    }
    Ok(parts)
}

/// Adds where a part begins or ends, if one does with a column.
fn push_edge(parts: &mut String, row: &[Kind], kind: Kind, column: usize) -> Result<(), AllocError>
    ensures { OnOk result (string_bytes parts.new
        ≡ string_bytes parts.old ++ edge row.now kind column) }
{
    let was = shows_before(row, kind, column);
    let is = shows(row, kind, column);
    push_edge_text(parts, level_of(kind), column, was, is)
}

/// Adds where a part at a height begins or ends, if one does with a column.
pub(crate) fn push_edge_text(
    parts: &mut String,
    level: u8,
    column: usize,
    was: bool,
    is: bool,
) -> Result<(), AllocError>
    ensures { OnOk result (string_bytes parts.new
        ≡ string_bytes parts.old ++ edge_text level column was is) }
{
    match (was, is) {
        (false, true) => write!(parts, "M{column} {level}"),
        (true, false) => write!(parts, "H{column}"),
        _ => Ok(()),
    }
}

/// Whether a row shows a kind in a column.
fn shows(row: &[Kind], kind: Kind, column: usize) -> bool
    ensures { result ≡ spec.shows row.now kind column }
{
    match row.get(column) {
        Some(shown) => is_same(*shown, kind),
        None => false,
    }
}

/// Whether a row shows a kind in the column before.
fn shows_before(row: &[Kind], kind: Kind, column: usize) -> bool
    ensures { result ≡ spec.shows_before row.now kind column }
{
    column != 0 && shows(row, kind, column - 1)
}

/// The height of a kind in a row, from 0 at its head to 24 at its foot.
pub(crate) fn level_of(kind: Kind) -> u8
    ensures { result ≡ level_of kind }
{
    match kind {
        Kind::AwaitsWord => 21,
        Kind::AwaitsReader => 3,
        _ => 12,
    }
}
