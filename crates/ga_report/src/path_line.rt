//! The path of a run, as lines at the foot of the rows.
ghost use Rattle.std.specs.Prelude.{◌≡◌, ◌++◌, IfOk, OnOk, string_bytes};
ghost use Rattle.ga_report.specs.PathLine as spec;
ghost use Rattle.ga_report.specs.PathLine.{path_edge, path_edges, path_if, path_line};

use crate::line::push_edge_text;
use ga_place::Node;
use std::alloc::{AllocError, Global};

/// Adds a line for the columns in which a node has the path, if there are any.
pub(crate) fn push_path(
    text: &mut String,
    alloc: Global,
    holders: &[Option<u8>],
    node: Node,
) -> Result<(), AllocError>
    ensures { OnOk result (string_bytes text.new
        ≡ string_bytes text.old ++ path_line holders.now node) }
{
    let parts = path_edges(alloc, holders, node.index())?;
    push_path_if(text, parts.as_str())
}

/// Adds a line, if it has a part.
#[tactic(auto, unfolding(crate::specs::PathLine::path_with))]
fn push_path_if(text: &mut String, parts: &str) -> Result<(), AllocError>
    ensures { OnOk result (string_bytes text.new
        ≡ string_bytes text.old ++ path_if parts.now) }
{
    if parts.is_empty() {
        return Ok(());
    }
    text.push_str("<path class='path' d='")?;
    text.push_str(parts)?;
    text.push_str("'/>")
}

/// The parts of a line, for the columns in which the node with an index has the path.
#[tactic(auto, unfolding(crate::specs::PathLine::path_edges))]
fn path_edges(alloc: Global, holders: &[Option<u8>], index: usize) -> Result<String, AllocError>
    ensures { IfOk result (λ parts. string_bytes parts ≡ path_edges holders.now index) }
{
    let mut parts = String::new(alloc);
    for column in 0..holders.len() + 1 {
        push_path_edge(&mut parts, holders, index, column)?;
    }
    Ok(parts)
}

/// Adds where a part begins or ends, if one does with a column.
fn push_path_edge(
    parts: &mut String,
    holders: &[Option<u8>],
    index: usize,
    column: usize,
) -> Result<(), AllocError>
    ensures { OnOk result (string_bytes parts.new
        ≡ string_bytes parts.old ++ path_edge holders.now index column) }
{
    let was = had_path(holders, index, column);
    push_edge_text(parts, 23, column, was, has_path(holders, index, column))
}

/// Whether the node with an index has the path in a column.
fn has_path(holders: &[Option<u8>], index: usize, column: usize) -> bool
    ensures { result ≡ spec.has_path holders.now index column }
{
    match holders.get(column) {
        Some(Some(holder)) => usize::from(*holder) == index,
        _ => false,
    }
}

/// Whether it has the path in the column before.
fn had_path(holders: &[Option<u8>], index: usize, column: usize) -> bool
    ensures { result ≡ spec.had_path holders.now index column }
{
    column != 0 && has_path(holders, index, column - 1)
}
