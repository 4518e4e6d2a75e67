//! The timeline as rows, one for each node that began.
ghost use Rattle.std.specs.Prelude.{◌≡◌, ◌++◌, IfOk, OnOk, length, string_bytes};
ghost use Rattle.ga_report.specs.Rows.{CROSS, KEY, KEY_ITEMS, OPENING, PATH, SAMPLE, axis, classed, drawn, key_item, levelled, note, reader_waits_text, row, row_head, row_if, row_name, rows, stop_mark, summary, timeline_part, word_waits_text, works_text};

use crate::columns::stride_of;
use crate::kind::{KINDS, Kind, class_of, words_of};
use crate::line::{level_of, push_lines};
use crate::parts::push_parts;
use crate::path_line::push_path;
use crate::scale::push_scale;
use crate::timeline::{Timeline, row_of};
use ga_place::Node;
use ga_profile::{NodeTurns, TurnCounts, Window};
use std::alloc::{AllocError, Global};
use std::fmt::Write;

/// Adds the timeline of a window, by what the nodes did.
#[tactic(auto, unfolding(crate::specs::Rows::timeline_part))]
pub(crate) fn push_timeline(
    text: &mut String,
    alloc: Global,
    nodes: &[NodeTurns],
    timeline: &Timeline,
) -> Result<(), AllocError>
    requires { length nodes.now ≡ 144 }
    ensures { OnOk result (string_bytes text.new
        ≡ string_bytes text.old ++ timeline_part nodes.now timeline.now) }
{
    push_key(text)?;
    push_rows(text, alloc, nodes, timeline)?;
    push_axis(text, timeline.window)
}

/// Adds the scale of a window, and what a column stands for.
#[tactic(auto, unfolding(crate::specs::Rows::axis))]
pub(crate) fn push_axis(text: &mut String, window: Window) -> Result<(), AllocError>
    ensures { OnOk result (string_bytes text.new ≡ string_bytes text.old ++ axis window) }
{
    push_scale(text, window)?;
    push_note(text, stride_of(window))
}

/// Adds the heading, and what the lines mean.
#[tactic(auto, unfolding(crate::specs::Rows::KEY))]
fn push_key(text: &mut String) -> Result<(), AllocError>
    ensures { OnOk result (string_bytes text.new ≡ string_bytes text.old ++ KEY) }
{
    push_opening(text)?;
    push_key_items(text)?;
    push_path_item(text)?;
    push_cross(text)?;
    text.push_str("</ul>\n")
}

/// Adds what the line at the foot means.
#[tactic(auto, unfolding(crate::specs::Rows::PATH))]
fn push_path_item(text: &mut String) -> Result<(), AllocError>
    ensures { OnOk result (string_bytes text.new ≡ string_bytes text.old ++ PATH) }
{
    let parts = [
        "<li><svg viewBox='0 0 26 24' aria-hidden='true'>",
        "<path class='path' d='M0 23H26'/></svg>",
        "the path: what the run waits for</li>\n",
    ];
    push_parts(text, &parts)
}

/// Adds what a cross means.
#[tactic(auto, unfolding(crate::specs::Rows::CROSS))]
fn push_cross(text: &mut String) -> Result<(), AllocError>
    ensures { OnOk result (string_bytes text.new ≡ string_bytes text.old ++ CROSS) }
{
    text.push_str("<li>&#215; at a name: the node has stopped</li>\n")
}

/// Adds the heading, and the begin of the key.
#[tactic(auto, unfolding(crate::specs::Rows::OPENING))]
fn push_opening(text: &mut String) -> Result<(), AllocError>
    ensures { OnOk result (string_bytes text.new ≡ string_bytes text.old ++ OPENING) }
{
    text.push_str("<h2>Timeline</h2>\n<ul class='key'>\n")
}

/// Adds what the line of each kind means.
#[tactic(auto, unfolding(crate::specs::Rows::KEY_ITEMS))]
fn push_key_items(text: &mut String) -> Result<(), AllocError>
    ensures { OnOk result (string_bytes text.new ≡ string_bytes text.old ++ KEY_ITEMS) }
{
    for kind in KINDS {
        push_key_item(text, kind)?;
    }
    Ok(())
}

/// Adds what the line of a kind means.
#[tactic(auto, unfolding(crate::specs::Rows::key_item))]
fn push_key_item(text: &mut String, kind: Kind) -> Result<(), AllocError>
    ensures { OnOk result (string_bytes text.new ≡ string_bytes text.old ++ key_item kind) }
{
    push_sample_opening(text)?;
    push_class(text, class_of(kind))?;
    push_level(text, level_of(kind))?;
    text.push_str(words_of(kind))?;
    text.push_str("</li>\n")
}

/// Adds the begin of a line of the key.
#[tactic(auto, unfolding(crate::specs::Rows::SAMPLE))]
fn push_sample_opening(text: &mut String) -> Result<(), AllocError>
    ensures { OnOk result (string_bytes text.new ≡ string_bytes text.old ++ SAMPLE) }
{
    text.push_str("<li><svg viewBox='0 0 26 24' aria-hidden='true'>")
}

/// Adds the begin of a line of a class.
#[tactic(auto, unfolding(crate::specs::Rows::classed))]
fn push_class(text: &mut String, class: &str) -> Result<(), AllocError>
    ensures { OnOk result (string_bytes text.new
        ≡ string_bytes text.old ++ classed class.now) }
{
    write!(text, "<path class='{class}' ")
}

/// Adds the end of a line at a height.
#[tactic(auto, unfolding(crate::specs::Rows::levelled))]
fn push_level(text: &mut String, level: u8) -> Result<(), AllocError>
    ensures { OnOk result (string_bytes text.new ≡ string_bytes text.old ++ levelled level) }
{
    write!(text, "d='M0 {level}H26'/></svg>")
}

/// Adds the rows of all nodes that began.
#[tactic(auto, unfolding(crate::specs::Rows::rows))]
pub(crate) fn push_rows(
    text: &mut String,
    alloc: Global,
    nodes: &[NodeTurns],
    timeline: &Timeline,
) -> Result<(), AllocError>
    requires { length nodes.now ≡ 144 }
    ensures { OnOk result (string_bytes text.new ≡ string_bytes text.old
        ++ rows nodes.now timeline.now) }
{
    for index in 0..144 {
        let shown = row_of(alloc, timeline, index)?;
        push_row_if(
            text,
            alloc,
            nodes[index].began,
            Node::at(index),
            &timeline.counts[index],
            shown.as_slice(),
            timeline.path.as_slice(),
        )?;
    }
    Ok(())
}

/// Adds the row of a node, if it began.
fn push_row_if(
    text: &mut String,
    alloc: Global,
    began: Option<u64>,
    node: Node,
    counts: &TurnCounts,
    shown: &[Kind],
    path: &[Option<u8>],
) -> Result<(), AllocError>
    ensures { OnOk result (string_bytes text.new ≡ string_bytes text.old
        ++ row_if began node counts.now shown.now path.now) }
{
    match began {
        Some(_) => push_row(text, alloc, node, counts, shown, path),
        None => Ok(()),
    }
}

/// Adds the row of a node.
#[tactic(auto, unfolding(crate::specs::Rows::row))]
fn push_row(
    text: &mut String,
    alloc: Global,
    node: Node,
    counts: &TurnCounts,
    shown: &[Kind],
    path: &[Option<u8>],
) -> Result<(), AllocError>
    ensures { OnOk result (string_bytes text.new ≡ string_bytes text.old
        ++ row node counts.now shown.now path.now) }
{
    push_row_name(text, node)?;
    text.push_str(stop_mark(counts.stops))?;
    push_row_head(text, shown.len())?;
    push_summary(text, node, counts)?;
    text.push_str("</title>")?;
    push_drawn(text, alloc, node, shown, path)?;
    text.push_str("</svg></div>\n")
}

/// Adds the lines of a row.
#[tactic(auto, unfolding(crate::specs::Rows::drawn))]
fn push_drawn(
    text: &mut String,
    alloc: Global,
    node: Node,
    shown: &[Kind],
    path: &[Option<u8>],
) -> Result<(), AllocError>
    ensures { OnOk result (string_bytes text.new ≡ string_bytes text.old
        ++ drawn node shown.now path.now) }
{
    push_lines(text, alloc, shown)?;
    push_path(text, alloc, path, node)
}

/// Adds the name of a node at the begin of its row.
#[tactic(auto, unfolding(crate::specs::Rows::row_name))]
fn push_row_name(text: &mut String, node: Node) -> Result<(), AllocError>
    ensures { OnOk result (string_bytes text.new ≡ string_bytes text.old ++ row_name node) }
{
    write!(text, "<div class='row'><b>{node}")
}

/// A cross, if a node is stopped in some turns.
fn stop_mark(turns: u64) -> &'static str
    ensures { result.now ≡ stop_mark turns }
{
    if turns == 0 { "" } else { " &#215;" }
}

/// Adds the begin of a row of this many columns.
#[tactic(auto, unfolding(crate::specs::Rows::row_head))]
fn push_row_head(text: &mut String, columns: usize) -> Result<(), AllocError>
    ensures { OnOk result (string_bytes text.new ≡ string_bytes text.old ++ row_head columns) }
{
    write!(
        text,
        "</b><svg viewBox='0 0 {columns} 24' preserveAspectRatio='none' role='img'><title>"
    )
}

/// Adds in how many turns a node does what.
#[tactic(auto, unfolding(crate::specs::Rows::summary))]
fn push_summary(text: &mut String, node: Node, counts: &TurnCounts) -> Result<(), AllocError>
    ensures { OnOk result (string_bytes text.new
        ≡ string_bytes text.old ++ summary node counts.now) }
{
    push_works(text, node, counts.works)?;
    push_word_waits(text, counts.word_waits)?;
    push_reader_waits(text, counts.reader_waits)
}

/// Adds in how many turns a node works.
#[tactic(auto, unfolding(crate::specs::Rows::works_text))]
fn push_works(text: &mut String, node: Node, turns: u64) -> Result<(), AllocError>
    ensures { OnOk result (string_bytes text.new
        ≡ string_bytes text.old ++ works_text node turns) }
{
    write!(text, "{node} works in {turns} turns")
}

/// Adds in how many it waits for a word.
#[tactic(auto, unfolding(crate::specs::Rows::word_waits_text))]
fn push_word_waits(text: &mut String, turns: u64) -> Result<(), AllocError>
    ensures { OnOk result (string_bytes text.new
        ≡ string_bytes text.old ++ word_waits_text turns) }
{
    write!(text, ", waits for a word in {turns}")
}

/// Adds in how many it waits for its word to be read.
#[tactic(auto, unfolding(crate::specs::Rows::reader_waits_text))]
fn push_reader_waits(text: &mut String, turns: u64) -> Result<(), AllocError>
    ensures { OnOk result (string_bytes text.new
        ≡ string_bytes text.old ++ reader_waits_text turns) }
{
    write!(text, ", and for a reader in {turns}")
}

/// Adds what a column of some turns stands for.
#[tactic(auto, unfolding(crate::specs::Rows::note))]
fn push_note(text: &mut String, turns: u64) -> Result<(), AllocError>
    ensures { OnOk result (string_bytes text.new ≡ string_bytes text.old ++ note turns) }
{
    if turns == 1 {
        text.push_str("<p>A column is a turn.</p>\n")
    } else {
        write!(
            text,
            "<p>A column of {turns} turns shows what the node did in most of them.</p>\n"
        )
    }
}
