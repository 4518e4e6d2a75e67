ghost use Rattle.std.specs.Prelude.{◌≡◌, IfOk, map, string_bytes};
ghost use Rattle.ga_counts.specs.Listing.{section_view};
ghost use Rattle.ga_input.specs.Fault.{Answers};
ghost use Rattle.ga_views.specs.ReportJob as spec;
ghost use Rattle.ga_views.specs.ReportJob.{IsCloseUp, IsHeadline, IsMeasured, IsNear, IsPage, IsReport, IsReportOutput, IsTimeline};

use crate::counts::counted_nodes;
use crate::profile::with_waits;
use crate::race::TURNS;
use ga_counts::CountedSection;
use ga_input::{Loading, ServeError, input_text, open_session};
use ga_profile::{Profile, Window, WindowStart, bottleneck_text, measure};
use ga_race::{Race, Verdict, race};
use ga_report::{CloseUp, Page, Timeline, close_up_in, close_up_window, page_text, timeline_in};
use ga_transcript::Live;
use std::alloc::{AllocError, Global};

/// A page in HTML of what the input's chip does in a run: a race, a deadlock or the bottleneck as
/// its headline; timelines; the profile; the chip at the end; and the listing of each node with
/// counts, beside the input. The commands behind the head of a session are done first. Then come
/// at most `turns` turns (by default 1,000,000), until no node moves but those that spin. The
/// profile and the timelines begin as `start` says.
pub fn output(
    alloc: Global,
    loading: &Loading,
    start: WindowStart,
    turns: Option<u32>,
    input: &[u8],
) -> Result<String, ServeError>
    ensures { Answers string_bytes (IsReportOutput loading.now start turns input.now) result }
{
    let live = open_session(alloc, loading, input)?;
    let text = input_text(input)?;
    let page = page_after(alloc, &live, start, turns.unwrap_or(TURNS), loading, text)?;
    Ok(page)
}

/// The page of a session in at most `most` turns.
fn page_after(
    alloc: Global,
    live: &Live,
    start: WindowStart,
    most: u32,
    loading: &Loading,
    text: &str,
) -> Result<String, AllocError>
    ensures { IfOk result (λ page.
        IsReport live.now start most loading.now text.now (string_bytes page)) }
{
    let sections = counted_nodes(alloc, live, most, loading, text)?;
    let profile = measured(alloc, live, start, most)?;
    let headline = headline(alloc, live, most, &profile)?;
    page_of(
        alloc,
        live,
        &profile,
        headline.as_str(),
        sections.as_slice(),
        text,
    )
}

/// The profile of a session's chip, from where a start says.
fn measured(
    alloc: Global,
    live: &Live,
    start: WindowStart,
    most: u32,
) -> Result<Profile, AllocError>
    ensures { IfOk result (IsMeasured live.now.chip start most) }
{
    measure(alloc, live.chip(), start, most)
}

/// The headline of a session with this profile.
fn headline(alloc: Global, live: &Live, most: u32, profile: &Profile) -> Result<String, AllocError>
    ensures { IfOk result (λ headline.
        IsHeadline live.now.chip most profile.now (string_bytes headline)) }
{
    let mut chip = live.chip().copied(alloc)?;
    let report = race(alloc, &mut chip, most)?;
    headline_by(alloc, &report.verdict, profile)
}

/// The headline for a verdict.
fn headline_by(alloc: Global, verdict: &Verdict, profile: &Profile) -> Result<String, AllocError>
    ensures { IfOk result (λ headline.
        string_bytes headline ≡ spec.headline_by verdict.now profile.now) }
{
    match verdict {
        Verdict::Race(race) => race_headline(alloc, race),
        _ => bottleneck_text(alloc, profile),
    }
}

/// The headline for a race.
fn race_headline(alloc: Global, race: &Race) -> Result<String, AllocError>
    ensures { IfOk result (λ headline. string_bytes headline ≡ spec.race_headline race.now) }
{
    let node = race.take.reader;
    format!(in alloc; "Race: the schedule decides which word {node} takes.")
}

/// The page of a profile of a session's chip, with a headline, the listings of its nodes and the
/// text with the session's source.
fn page_of(
    alloc: Global,
    live: &Live,
    profile: &Profile,
    headline: &str,
    listing: &[CountedSection],
    source: &str,
) -> Result<String, AllocError>
    ensures { IfOk result (λ page.
        IsPage live.now profile.now headline.now (map section_view listing.now) source.now
        (string_bytes page)) }
{
    let timeline = timeline_of(alloc, live, profile.window)?;
    let near = close_up(alloc, live, profile.window, close_up_window(profile))?;
    let shown = with_waits(alloc, profile, live.images())?;
    let page = Page {
        headline,
        profile,
        timeline: &timeline,
        close_up: near.as_ref(),
        profile_text: shown.as_str(),
        listing,
        source,
    };
    page_text(alloc, &page)
}

/// The timeline of a window of the run of a session's chip.
fn timeline_of(alloc: Global, live: &Live, window: Window) -> Result<Timeline, AllocError>
    ensures { IfOk result (IsTimeline live.now.chip window) }
{
    timeline_in(alloc, live.chip(), window)
}

/// The timeline of a close-up, if there is one.
fn close_up(
    alloc: Global,
    live: &Live,
    whole: Window,
    window: Option<Window>,
) -> Result<Option<CloseUp>, AllocError>
    ensures { IfOk result (IsCloseUp live.now.chip whole window) }
{
    match window {
        Some(window) => Ok(Some(near_of(alloc, live, whole, window)?)),
        None => Ok(None),
    }
}

/// The close-up of a part of a window of the run of a session's chip.
fn near_of(alloc: Global, live: &Live, whole: Window, window: Window) -> Result<CloseUp, AllocError>
    ensures { IfOk result (IsNear live.now.chip whole window) }
{
    close_up_in(alloc, live.chip(), whole, window)
}
