//! Shares of turns, and cells of a table.
ghost use Rattle.std.specs.Prelude.{◌≡◌, ◌<◌, ◌^◌, ◌++◌, IfOk, OnOk, replicate, string_bytes};
ghost use Rattle.ga_profile.specs.Share as spec;
ghost use Rattle.ga_profile.specs.Share.{cell, share_text};

use std::alloc::{AllocError, Global};
use std::fmt::Write;

/// A share of some turns, in percent.
#[derive(Clone, Copy)]
pub(crate) enum Share {
    None,
    BelowOne,
    Percent(u128),
}

/// The share that some turns are of all, in percent and rounded.
#[tactic(auto, unfolding(crate::specs::Share::share_of))]
pub(crate) fn share_of(turns: u64, all: u64) -> Share
    ensures { result ≡ spec.share_of turns all }
{
    if turns == 0 {
        return Share::None;
    }
    if all == 0 {
        return Share::None;
    }
    percent_of(u128::from(turns) * 100, u128::from(all))
}

/// The share that a hundredth of a number is of another one.
fn percent_of(hundredfold: u128, all: u128) -> Share
    requires hundredfold { hundredfold < 2 ^ 100 }
    requires all { all < 2 ^ 100 }
    requires nonzero { 0 < all }
    ensures { result ≡ spec.percent_of hundredfold all }
{
    if hundredfold < all {
        Share::BelowOne
    } else {
        Share::Percent((hundredfold * 2 + all) / (all * 2))
    }
}

/// A share as text.
fn share_text(alloc: Global, share: Share) -> Result<String, AllocError>
    ensures { IfOk result (λ text. string_bytes text ≡ share_text share) }
{
    match share {
        Share::None => String::from_str(alloc, "."),
        Share::BelowOne => String::from_str(alloc, "<1"),
        Share::Percent(number) => format!(in alloc; "{number}"),
    }
}

/// Adds a share at the right of a column.
pub(crate) fn push_share(
    text: &mut String,
    alloc: Global,
    width: usize,
    share: Share,
) -> Result<(), AllocError>
    ensures { OnOk result (string_bytes text.new
        ≡ string_bytes text.old ++ cell width (share_text share)) }
{
    let shown = share_text(alloc, share)?;
    push_cell(text, width, shown.as_str())
}

/// Adds a number at the right of a column.
pub(crate) fn push_number(
    text: &mut String,
    alloc: Global,
    width: usize,
    number: u64,
) -> Result<(), AllocError>
    ensures { OnOk result (string_bytes text.new
        ≡ string_bytes text.old ++ spec.number_cell width number) }
{
    let shown = format!(in alloc; "{number}")?;
    push_cell(text, width, shown.as_str())
}

/// Adds a text at the right of a column, behind at least one blank.
#[tactic(auto, unfolding(crate::specs::Share::cell))]
pub(crate) fn push_cell(text: &mut String, width: usize, shown: &str) -> Result<(), AllocError>
    ensures { OnOk result (string_bytes text.new
        ≡ string_bytes text.old ++ cell width shown.now) }
{
    push_blanks(text, width.saturating_sub(shown.len()).max(1))?;
    text.push_str(shown)?;
    Ok(())
}

/// Adds blanks.
fn push_blanks(text: &mut String, count: usize) -> Result<(), AllocError>
    ensures { OnOk result (string_bytes text.new
        ≡ string_bytes text.old ++ replicate count 32) }
{
    for _done in 0..count {
        text.push_str(" ")?;
    }
    Ok(())
}
