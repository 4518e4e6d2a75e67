//! The turns below a timeline, each in its place.
ghost use Rattle.std.specs.Prelude.{◌≡◌, ◌++◌, OnOk, string_bytes};
ghost use Rattle.ga_report.specs.Scale as spec;
ghost use Rattle.ga_report.specs.Scale.{LABEL, OPENING, scale, share, tick, tick_at, ticks};

use crate::columns::turns_drawn;
use ga_profile::Window;
use std::alloc::AllocError;
use std::fmt::Write;

/// Adds the turns at the quarters of a window, from its begin to its end.
#[tactic(auto, unfolding(crate::specs::Scale::scale))]
pub(crate) fn push_scale(text: &mut String, window: Window) -> Result<(), AllocError>
    ensures { OnOk result (string_bytes text.new ≡ string_bytes text.old ++ scale window) }
{
    push_opening(text)?;
    push_ticks(text, window)?;
    text.push_str("</div>\n")
}

/// Adds the begin of the scale.
#[tactic(auto, unfolding(crate::specs::Scale::OPENING))]
fn push_opening(text: &mut String) -> Result<(), AllocError>
    ensures { OnOk result (string_bytes text.new ≡ string_bytes text.old ++ OPENING) }
{
    text.push_str("<div class='scale'>")
}

/// Adds the turns at the quarters of a window.
#[tactic(auto, unfolding(crate::specs::Scale::ticks))]
fn push_ticks(text: &mut String, window: Window) -> Result<(), AllocError>
    ensures { OnOk result (string_bytes text.new ≡ string_bytes text.old ++ ticks window) }
{
    for quarters in 0..5 {
        push_tick(text, window, quarters)?;
    }
    Ok(())
}

/// Adds the turn behind some quarters of a window.
fn push_tick(text: &mut String, window: Window, quarters: u32) -> Result<(), AllocError>
    ensures { OnOk result (string_bytes text.new
        ≡ string_bytes text.old ++ tick_at window quarters) }
{
    let offset = offset_at(window, quarters);
    let turn = window.first.saturating_add(offset);
    push_label(text, offset, turns_drawn(window), turn)
}

/// How many turns some quarters of a window have.
fn offset_at(window: Window, quarters: u32) -> u64
    ensures { result ≡ spec.offset_at window quarters }
{
    window.length() * u64::from(quarters) / 4
}

/// Adds a turn at an offset in a number of turns.
#[tactic(auto, unfolding(crate::specs::Scale::tick))]
fn push_label(text: &mut String, offset: u64, turns: u64, turn: u64) -> Result<(), AllocError>
    ensures { OnOk result (string_bytes text.new
        ≡ string_bytes text.old ++ tick offset turns turn) }
{
    push_label_opening(text)?;
    push_share(text, offset, turns)?;
    write!(text, "{turn}")?;
    text.push_str("</span>")
}

/// Adds the begin of a turn, up to its place.
#[tactic(auto, unfolding(crate::specs::Scale::LABEL))]
fn push_label_opening(text: &mut String) -> Result<(), AllocError>
    ensures { OnOk result (string_bytes text.new ≡ string_bytes text.old ++ LABEL) }
{
    text.push_str("<span style='left:calc(100%*")
}

/// Adds an offset as a share of a number of turns.
#[tactic(auto, unfolding(crate::specs::Scale::share))]
fn push_share(text: &mut String, offset: u64, turns: u64) -> Result<(), AllocError>
    ensures { OnOk result (string_bytes text.new ≡ string_bytes text.old ++ share offset turns) }
{
    write!(text, "{offset}/{turns})'>")
}
