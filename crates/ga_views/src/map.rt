ghost use Rattle.std.specs.Prelude.{◌≡◌, IfOk, string_bytes};
ghost use Rattle.ga_input.specs.Fault.{Answers};
ghost use Rattle.ga_views.specs.MapJob.{IsMapOutput, map_after};

use crate::race::TURNS;
use ga_input::{Loading, ServeError, open_session};
use ga_map::map;
use ga_trace::run;
use ga_transcript::Live;
use std::alloc::{AllocError, Global};

/// The picture of the input's chip, as the command `map` shows it. The commands behind the head of
/// a session are done first. Then come at most `turns` turns (by default 1,000,000), until no node
/// moves but those that spin.
pub fn output(
    alloc: Global,
    loading: &Loading,
    turns: Option<u32>,
    input: &[u8],
) -> Result<String, ServeError>
    ensures { Answers string_bytes (IsMapOutput loading.now turns input.now) result }
{
    let live = open_session(alloc, loading, input)?;
    let text = map_after(alloc, &live, turns.unwrap_or(TURNS))?;
    Ok(text)
}

/// The picture of the chip of a session after turns.
fn map_after(alloc: Global, live: &Live, turns: u32) -> Result<String, AllocError>
    ensures { IfOk result (λ text. string_bytes text ≡ map_after live.now turns) }
{
    let mut chip = live.chip().copied(alloc)?;
    let _ran = run(&mut chip, turns);
    map(alloc, &chip, Some(live.images()))
}
