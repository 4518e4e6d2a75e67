ghost use Rattle.std.specs.Prelude.{◌≡◌, IfOk, map, string_bytes};
ghost use Rattle.ga_counts.specs.Listing.{section_view};
ghost use Rattle.ga_views.specs.CountsJob as spec;
ghost use Rattle.ga_views.specs.CountsJob.{AreCounted, IsCounted, IsCountsOutput, IsSourceOf};
ghost use Rattle.ga_input.specs.Fault.{Answers};

use crate::race::TURNS;
use crate::trace::turns_until_rest;
use ga_counts::{CountedSection, count, counted_list, counted_sections};
use ga_debug::head_source;
use ga_input::{Loading, ServeError, input_text, is_head, open_session};
use ga_transcript::Live;
use std::alloc::{AllocError, Global};

/// The listing of the input's program, with how often each word was fetched and the opcode in each
/// slot run. The commands behind the head of a session are done first. Then come the turns that
/// count: at most `turns` (by default 1,000,000), until no node moves but those that spin.
pub fn output(
    alloc: Global,
    loading: &Loading,
    turns: Option<u32>,
    input: &[u8],
) -> Result<String, ServeError>
    ensures { Answers string_bytes (IsCountsOutput loading.now turns input.now) result }
{
    let live = open_session(alloc, loading, input)?;
    let text = input_text(input)?;
    let listing = counted(alloc, &live, turns.unwrap_or(TURNS), loading, text)?;
    Ok(listing)
}

/// The listing of a session's program with the counts of turns until rest, at most `most`.
#[tactic(auto, unfolding(crate::specs::CountsJob::IsCounted))]
fn counted(
    alloc: Global,
    live: &Live,
    most: u32,
    loading: &Loading,
    text: &str,
) -> Result<String, AllocError>
    ensures { IfOk result (λ listing.
        IsCounted live.now most loading.now text.now (string_bytes listing)) }
{
    let turns = turns_until_rest(alloc, live, most)?;
    let counts = count(alloc, live.chip(), turns)?;
    let source = source_lines(alloc, loading, text)?;
    let before = lines_before(loading, text);
    match counted_list(alloc, source.as_str(), before, &counts) {
        Ok(listing) => Ok(listing),
        // The source was assembled before, so only memory can be missing.
        Err(_) => Err(AllocError),
    }
}

/// The same for the listings of the nodes.
#[tactic(auto, unfolding(crate::specs::CountsJob::AreCounted))]
pub(crate) fn counted_nodes(
    alloc: Global,
    live: &Live,
    most: u32,
    loading: &Loading,
    text: &str,
) -> Result<Vec<CountedSection>, AllocError>
    ensures { IfOk result (λ sections. AreCounted live.now most loading.now text.now
        (map section_view sections.items)) }
{
    let turns = turns_until_rest(alloc, live, most)?;
    let counts = count(alloc, live.chip(), turns)?;
    let source = source_lines(alloc, loading, text)?;
    let before = lines_before(loading, text);
    match counted_sections(alloc, source.as_str(), before, &counts) {
        Ok(sections) => Ok(sections),
        // The source was assembled before, so only memory can be missing.
        Err(_) => Err(AllocError),
    }
}

/// The source lines of a text that was loaded before.
fn source_lines(alloc: Global, loading: &Loading, text: &str) -> Result<String, AllocError>
    ensures { IfOk result (λ source. IsSourceOf loading.now text.now (string_bytes source)) }
{
    if !is_head(loading, text) {
        return String::from_str(alloc, text);
    }
    match head_source(alloc, text) {
        Ok(source) => Ok(source),
        // The head was loaded before, so only memory can be missing.
        Err(_) => Err(AllocError),
    }
}

/// How many lines of a text come before its source lines.
fn lines_before(loading: &Loading, text: &str) -> usize
    ensures { result ≡ spec.lines_before loading.now text.now }
{
    if is_head(loading, text) { 2 } else { 0 }
}
