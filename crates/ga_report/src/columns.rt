//! The columns of a window.
ghost use Rattle.std.specs.Prelude.{◌≡◌, ◌<◌, ◌^◌};
ghost use Rattle.ga_report.specs.Columns as spec;

use ga_profile::Window;

/// How many turns a column has: as few as give at most 600 columns.
pub(crate) fn stride_of(window: Window) -> u64
    ensures value { result ≡ spec.stride_of window }
    ensures positive { 0 < result }
    ensures bound { result < 2 ^ 32 }
{
    ((window.length() + 599) / 600).max(1)
}

/// How many columns a window has. The last one may have fewer turns.
pub(crate) fn columns_of(window: Window) -> usize
    ensures { result ≡ spec.columns_of window }
{
    let stride = stride_of(window);
    ((window.length() + (stride - 1)) / stride) as usize
}

/// The turn with which a column begins, or the end of the window.
pub(crate) fn bound(window: Window, column: usize) -> u32
    ensures { result ≡ spec.bound window column }
{
    let offset = (column as u64).saturating_mul(stride_of(window));
    let turn = window.first.saturating_add(offset);
    turn.min(u64::from(window.end)) as u32
}

/// How many turns all columns have, with those behind the end of the window in the last one.
pub(crate) fn turns_drawn(window: Window) -> u64
    ensures { result ≡ spec.turns_drawn window }
{
    let columns = columns_of(window) as u64;
    columns * stride_of(window)
}
