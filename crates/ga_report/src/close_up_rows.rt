//! A part of a window from near: its timeline, with words as lines over the rows.
ghost use Rattle.std.specs.Prelude.{◌≡◌, ◌++◌, OnOk, length, string_bytes};
ghost use Rattle.ga_report.specs.CloseUpRows.{OPENING, close_up_part, close_up_rows, covered};

use crate::close_up::CloseUp;
use crate::rows::{push_axis, push_rows};
use crate::transfer_lines::{push_drawing_if, push_words_note};
use ga_profile::NodeTurns;
use std::alloc::{AllocError, Global};

/// Adds a part of the window from near, if there is one.
pub(crate) fn push_close_up(
    text: &mut String,
    alloc: Global,
    nodes: &[NodeTurns],
    near: Option<&CloseUp>,
) -> Result<(), AllocError>
    requires { length nodes.now ≡ 144 }
    ensures { OnOk result (string_bytes text.new
        ≡ string_bytes text.old ++ close_up_part nodes.now near.entry) }
{
    match near {
        Some(near) => push_close_up_rows(text, alloc, nodes, near),
        None => Ok(()),
    }
}

/// Adds a part of the window from near.
#[tactic(auto, unfolding(crate::specs::CloseUpRows::close_up_rows))]
fn push_close_up_rows(
    text: &mut String,
    alloc: Global,
    nodes: &[NodeTurns],
    near: &CloseUp,
) -> Result<(), AllocError>
    requires { length nodes.now ≡ 144 }
    ensures { OnOk result (string_bytes text.new
        ≡ string_bytes text.old ++ close_up_rows nodes.now near.now) }
{
    push_opening(text)?;
    push_covered(text, alloc, nodes, near)?;
    text.push_str("</div>\n")?;
    push_axis(text, near.timeline.window)?;
    push_words_note(text, near.transfers.as_slice())
}

/// Adds the heading, and the begin of the rows.
#[tactic(auto, unfolding(crate::specs::CloseUpRows::OPENING))]
fn push_opening(text: &mut String) -> Result<(), AllocError>
    ensures { OnOk result (string_bytes text.new ≡ string_bytes text.old ++ OPENING) }
{
    text.push_str("<h2>Turns in the middle</h2>\n<div class='over'>\n")
}

/// Adds the rows, with the lines of words over them.
#[tactic(auto, unfolding(crate::specs::CloseUpRows::covered))]
fn push_covered(
    text: &mut String,
    alloc: Global,
    nodes: &[NodeTurns],
    near: &CloseUp,
) -> Result<(), AllocError>
    requires { length nodes.now ≡ 144 }
    ensures { OnOk result (string_bytes text.new
        ≡ string_bytes text.old ++ covered nodes.now near.now) }
{
    push_rows(text, alloc, nodes, &near.timeline)?;
    push_drawing_if(text, nodes, near.timeline.window, near.transfers.as_slice())
}
