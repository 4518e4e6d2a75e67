//! A bar that shows in which turns a node did what.
ghost use Rattle.std.specs.Prelude.{◌≡◌, ◌++◌, ◌<◌, ◌^◌, OnOk, string_bytes};
ghost use Rattle.ga_profile.specs.Bar as spec;
ghost use Rattle.ga_profile.specs.Bar.{bar, sign_text};

use crate::node_turns::TurnCounts;
use std::alloc::AllocError;

/// What a column of a bar shows.
#[derive(Clone, Copy)]
pub(crate) enum Sign {
    Boots,
    Works,
    AwaitsWord,
    AwaitsReader,
    Spins,
    Stopped,
    Idle,
}

/// Adds a bar of 24 columns.
#[tactic(auto, unfolding(crate::specs::Bar::bar))]
pub(crate) fn push_bar(text: &mut String, counts: &TurnCounts, turns: u64) -> Result<(), AllocError>
    ensures { OnOk result (string_bytes text.new
        ≡ string_bytes text.old ++ bar counts.now turns) }
{
    for column in 0..24_u32 {
        text.push_str(sign_text(sign_at(counts, turns, column)))?;
    }
    Ok(())
}

/// What a column shows: the turn in its middle.
fn sign_at(counts: &TurnCounts, turns: u64, column: u32) -> Sign
    requires { column < 24 }
    ensures { result ≡ spec.sign_at counts.now turns column }
{
    let middle = (u128::from(column) * 2 + 1) * u128::from(turns);
    sign_in(counts, middle)
}

/// What the bar shows there: first come the turns in which the node boots, and so on.
fn sign_in(counts: &TurnCounts, middle: u128) -> Sign
    ensures { result ≡ spec.sign_in counts.now middle }
{
    let boots = u128::from(counts.boots);
    let worked = boots + u128::from(counts.works);
    if middle < 48 * boots {
        Sign::Boots
    } else if middle < 48 * worked {
        Sign::Works
    } else {
        sign_behind(counts, middle, worked)
    }
}

/// The same behind the turns in which the node moved.
fn sign_behind(counts: &TurnCounts, middle: u128, worked: u128) -> Sign
    requires { worked < 2 ^ 65 }
    ensures { result ≡ spec.sign_behind counts.now middle worked }
{
    let taken = worked + u128::from(counts.word_waits);
    let read = taken + u128::from(counts.reader_waits);
    if middle < 48 * taken {
        Sign::AwaitsWord
    } else if middle < 48 * read {
        Sign::AwaitsReader
    } else {
        sign_of_rest(counts, middle, read)
    }
}

/// The same behind the turns in which it waited, too.
fn sign_of_rest(counts: &TurnCounts, middle: u128, waited: u128) -> Sign
    requires { waited < 2 ^ 67 }
    ensures { result ≡ spec.sign_of_rest counts.now middle waited }
{
    let spun = waited + u128::from(counts.spins);
    let stopped = spun + u128::from(counts.stops);
    if middle < 48 * spun {
        Sign::Spins
    } else if middle < 48 * stopped {
        Sign::Stopped
    } else {
        Sign::Idle
    }
}

fn sign_text(sign: Sign) -> &'static str
    ensures { result.now ≡ sign_text sign }
{
    match sign {
        Sign::Boots => "b",
        Sign::Works => "#",
        Sign::AwaitsWord => "?",
        Sign::AwaitsReader => "!",
        Sign::Spins => "~",
        Sign::Stopped => "x",
        Sign::Idle => " ",
    }
}
