//! Words as lines over the rows of a timeline, from their posts to their takes.
ghost use Rattle.std.specs.Prelude.{◌≡◌, ◌++◌, OnOk, length, string_bytes};
ghost use Rattle.ga_report.specs.TransferLines as spec;
ghost use Rattle.ga_report.specs.TransferLines.{DRAWING, LINE, drawing, drawing_if, line, line_end, line_if, lines, middle, offset, opening, size, title, turns_text, word_text, words_note};

use crate::columns::turns_drawn;
use crate::transfers::Transfer;
use ga_place::Node;
use ga_profile::{NodeTurns, Window};
use ga_word::Word18;
use std::alloc::AllocError;
use std::fmt::Write;

/// Adds the lines of some words in a window, unless there are more than 400.
pub(crate) fn push_drawing_if(
    text: &mut String,
    nodes: &[NodeTurns],
    window: Window,
    transfers: &[Transfer],
) -> Result<(), AllocError>
    requires { length nodes.now ≡ 144 }
    ensures { OnOk result (string_bytes text.new
        ≡ string_bytes text.old ++ drawing_if nodes.now window transfers.now) }
{
    if transfers.len() <= 400 {
        push_drawing(text, nodes, window, transfers)
    } else {
        Ok(())
    }
}

/// Adds what a line means, or that there are none.
pub(crate) fn push_words_note(text: &mut String, transfers: &[Transfer]) -> Result<(), AllocError>
    ensures { OnOk result (string_bytes text.new
        ≡ string_bytes text.old ++ words_note transfers.now) }
{
    if transfers.len() <= 400 {
        text.push_str("<p>A thin line is a word, from its post to its take.</p>\n")
    } else {
        text.push_str("<p>Nodes take more than 400 words, so none is drawn.</p>\n")
    }
}

/// Adds the lines of some words in a window.
#[tactic(auto, unfolding(crate::specs::TransferLines::drawing))]
fn push_drawing(
    text: &mut String,
    nodes: &[NodeTurns],
    window: Window,
    transfers: &[Transfer],
) -> Result<(), AllocError>
    requires { length nodes.now ≡ 144 }
    ensures { OnOk result (string_bytes text.new
        ≡ string_bytes text.old ++ drawing nodes.now window transfers.now) }
{
    push_opening(text, turns_drawn(window), rows_before(nodes, 144))?;
    push_lines(text, nodes, window.first, transfers)?;
    text.push_str("</svg>\n")
}

/// Adds the begin of a drawing of some turns over some rows.
#[tactic(auto, unfolding(crate::specs::TransferLines::opening))]
fn push_opening(text: &mut String, turns: u64, rows: usize) -> Result<(), AllocError>
    ensures { OnOk result (string_bytes text.new ≡ string_bytes text.old ++ opening turns rows) }
{
    push_drawing_opening(text)?;
    push_size(text, turns, rows)?;
    text.push_str("' preserveAspectRatio='none'>\n")
}

/// Adds the begin of a drawing, up to its size.
#[tactic(auto, unfolding(crate::specs::TransferLines::DRAWING))]
fn push_drawing_opening(text: &mut String) -> Result<(), AllocError>
    ensures { OnOk result (string_bytes text.new ≡ string_bytes text.old ++ DRAWING) }
{
    text.push_str("<svg class='transfers' viewBox='-.5 0 ")
}

/// Adds the size of a drawing.
#[tactic(auto, unfolding(crate::specs::TransferLines::size))]
fn push_size(text: &mut String, turns: u64, rows: usize) -> Result<(), AllocError>
    ensures { OnOk result (string_bytes text.new ≡ string_bytes text.old ++ size turns rows) }
{
    write!(text, "{turns} {rows}")
}

/// Adds the lines of some words.
#[tactic(auto, unfolding(crate::specs::TransferLines::lines))]
fn push_lines(
    text: &mut String,
    nodes: &[NodeTurns],
    first: u64,
    transfers: &[Transfer],
) -> Result<(), AllocError>
    requires { length nodes.now ≡ 144 }
    ensures { OnOk result (string_bytes text.new
        ≡ string_bytes text.old ++ lines nodes.now first transfers.now) }
{
    for transfer in transfers {
        push_line_if(text, nodes, first, transfer)?;
    }
    Ok(())
}

/// Adds the line of a word, if both its nodes have a row.
fn push_line_if(
    text: &mut String,
    nodes: &[NodeTurns],
    first: u64,
    transfer: &Transfer,
) -> Result<(), AllocError>
    requires { length nodes.now ≡ 144 }
    ensures { OnOk result (string_bytes text.new
        ≡ string_bytes text.old ++ line_if nodes.now first transfer.now) }
{
    if has_row(nodes, transfer.poster) && has_row(nodes, transfer.reader) {
        push_line(text, nodes, first, transfer)
    } else {
        Ok(())
    }
}

/// Adds the line of a word.
#[tactic(auto, unfolding(crate::specs::TransferLines::line))]
fn push_line(
    text: &mut String,
    nodes: &[NodeTurns],
    first: u64,
    transfer: &Transfer,
) -> Result<(), AllocError>
    ensures { OnOk result (string_bytes text.new
        ≡ string_bytes text.old ++ line nodes.now first transfer.now) }
{
    push_line_opening(text)?;
    push_end(
        text,
        first,
        transfer.posted,
        row_number(nodes, transfer.poster),
    )?;
    text.push_str("L")?;
    push_end(
        text,
        first,
        transfer.taken,
        row_number(nodes, transfer.reader),
    )?;
    push_title(text, transfer)
}

/// Adds the begin of a line.
#[tactic(auto, unfolding(crate::specs::TransferLines::LINE))]
fn push_line_opening(text: &mut String) -> Result<(), AllocError>
    ensures { OnOk result (string_bytes text.new ≡ string_bytes text.old ++ LINE) }
{
    text.push_str("<path class='transfer' d='M")
}

/// Adds an end of a line: a turn, and the middle of a row.
#[tactic(auto, unfolding(crate::specs::TransferLines::line_end))]
fn push_end(text: &mut String, first: u64, turn: u64, row: usize) -> Result<(), AllocError>
    ensures { OnOk result (string_bytes text.new
        ≡ string_bytes text.old ++ line_end first turn row) }
{
    push_offset(text, first, turn)?;
    push_middle(text, row)
}

/// Adds how far a turn is from the first one.
#[tactic(auto, unfolding(crate::specs::TransferLines::offset))]
fn push_offset(text: &mut String, first: u64, turn: u64) -> Result<(), AllocError>
    ensures { OnOk result (string_bytes text.new ≡ string_bytes text.old ++ offset first turn) }
{
    if turn < first {
        let before = first - turn;
        write!(text, "-{before}")
    } else {
        let behind = turn - first;
        write!(text, "{behind}")
    }
}

/// Adds the middle of a row.
#[tactic(auto, unfolding(crate::specs::TransferLines::middle))]
fn push_middle(text: &mut String, row: usize) -> Result<(), AllocError>
    ensures { OnOk result (string_bytes text.new ≡ string_bytes text.old ++ middle row) }
{
    write!(text, " {row}.5")
}

/// Adds a word in words, and the end of its line.
#[tactic(auto, unfolding(crate::specs::TransferLines::title))]
fn push_title(text: &mut String, transfer: &Transfer) -> Result<(), AllocError>
    ensures { OnOk result (string_bytes text.new ≡ string_bytes text.old ++ title transfer.now) }
{
    push_word(text, transfer.poster, transfer.reader, transfer.word)?;
    push_turns(text, transfer.posted, transfer.taken)?;
    text.push_str("</title></path>\n")
}

/// Adds a word, and its nodes.
#[tactic(auto, unfolding(crate::specs::TransferLines::word_text))]
fn push_word(text: &mut String, poster: Node, reader: Node, word: Word18) -> Result<(), AllocError>
    ensures { OnOk result (string_bytes text.new
        ≡ string_bytes text.old ++ word_text poster reader word) }
{
    write!(text, "'><title>{poster} to {reader}: {word}")
}

/// Adds the turns of a post and a take.
#[tactic(auto, unfolding(crate::specs::TransferLines::turns_text))]
fn push_turns(text: &mut String, posted: u64, taken: u64) -> Result<(), AllocError>
    ensures { OnOk result (string_bytes text.new
        ≡ string_bytes text.old ++ turns_text posted taken) }
{
    write!(text, ", turn {posted} to turn {taken}")
}

/// Whether a node has a row.
fn has_row(nodes: &[NodeTurns], node: Node) -> bool
    requires { length nodes.now ≡ 144 }
    ensures { result ≡ spec.has_row nodes.now node }
{
    nodes[node.index()].began.is_some()
}

/// The number of a node's row, counted from 0.
fn row_number(nodes: &[NodeTurns], node: Node) -> usize
    ensures { result ≡ spec.row_number nodes.now node }
{
    rows_before(nodes, node.index())
}

/// How many nodes before an index have a row.
fn rows_before(nodes: &[NodeTurns], index: usize) -> usize
    ensures { result ≡ spec.rows_before nodes.now index }
{
    nodes
        .iter()
        .take(index)
        .filter(|did| did.began.is_some())
        .count()
}
