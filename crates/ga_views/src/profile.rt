ghost use Rattle.std.specs.Prelude.{◌≡◌, IfOk, string_bytes};
ghost use Rattle.ga_input.specs.Fault.{Answers};
ghost use Rattle.ga_views.specs.ProfileJob.{IsProfileOutput, IsProfileText, profile_after, with_waits};

use crate::race::TURNS;
use ga_asm::Images;
use ga_input::{Loading, ServeError, open_session, session};
use ga_profile::{Profile, WindowStart, measure, profile_text};
use ga_transcript::Live;
use ga_waits::causes_first;
use std::alloc::{AllocError, Global};

/// What each node of the input's chip does in a run, the bottleneck, and who waits at the end. The
/// commands behind the head of a session are done first. Then come at most `turns` turns (by
/// default 1,000,000), until no node moves but those that spin. The profile begins as `start` says.
///
/// As JSON it is written by another crate. Here the session is opened then, and the text is empty.
pub fn output(
    alloc: Global,
    loading: &Loading,
    start: WindowStart,
    json: bool,
    turns: Option<u32>,
    input: &[u8],
) -> Result<String, ServeError>
    ensures { Answers string_bytes
        (IsProfileOutput loading.now start json turns input.now) result }
{
    if json {
        session::output(alloc, loading, input)
    } else {
        written(alloc, loading, start, turns, input)
    }
}

/// The text of a profile.
fn written(
    alloc: Global,
    loading: &Loading,
    start: WindowStart,
    turns: Option<u32>,
    input: &[u8],
) -> Result<String, ServeError>
    ensures { Answers string_bytes (IsProfileText loading.now start turns input.now) result }
{
    let live = open_session(alloc, loading, input)?;
    let text = profile_after(alloc, &live, start, turns.unwrap_or(TURNS))?;
    Ok(text)
}

/// The profile of the chip of a session, and who waits for whom at the end of its window.
fn profile_after(
    alloc: Global,
    live: &Live,
    start: WindowStart,
    turns: u32,
) -> Result<String, AllocError>
    ensures { IfOk result (λ text. string_bytes text ≡ profile_after live.now start turns) }
{
    let profile = measure(alloc, live.chip(), start, turns)?;
    with_waits(alloc, &profile, live.images())
}

/// A profile as text, with the labels of images, and who waits for whom at the end of its window.
pub(crate) fn with_waits(
    alloc: Global,
    profile: &Profile,
    images: &Images,
) -> Result<String, AllocError>
    ensures { IfOk result (λ text. string_bytes text ≡ with_waits images.now profile.now) }
{
    let mut text = profile_text(alloc, profile, Some(images))?;
    text.push_str("At the end:\n")?;
    let waits = causes_first(alloc, &profile.chip, Some(images))?;
    text.push_str(waits.as_str())?;
    Ok(text)
}
