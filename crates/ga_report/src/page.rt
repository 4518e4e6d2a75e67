//! A page of a run.
ghost use Rattle.std.specs.Prelude.{◌≡◌, ◌++◌, IfOk, OnOk, map, string_bytes};
ghost use Rattle.ga_counts.specs.Listing.{section_view};
ghost use Rattle.ga_report.specs.Page.{CLOSING, OPENING, REMARK, head, heading, listing_column, page_text, preformatted, source_column};

use crate::close_up::CloseUp;
use crate::close_up_rows::push_close_up;
use crate::escape::push_escaped;
use crate::listing::push_listing;
use crate::parts::push_parts;
use crate::picture::push_picture;
use crate::rows::push_timeline;
use crate::source::push_source;
use crate::style::push_style;
use crate::timeline::Timeline;
use ga_counts::CountedSection;
use ga_profile::Profile;
use std::alloc::{AllocError, Global};
use std::fmt::Write;

/// What a page shows.
#[derive(Clone, Copy)]
pub struct Page<'a> {
    /// A sentence that says what the run is.
    pub headline: &'a str,
    pub profile: &'a Profile,
    /// The timeline of the profile's window.
    pub timeline: &'a Timeline,
    /// A part of it from near, as `close_up_window` gives.
    pub close_up: Option<&'a CloseUp>,
    /// The text of the profile.
    pub profile_text: &'a str,
    /// The listings of its nodes, with counts.
    pub listing: &'a [CountedSection],
    /// The input, to whose lines the numbers in the listings belong.
    pub source: &'a str,
}

/// A run as one page in HTML that is well-formed XML too, and needs no other file and no script:
/// the headline; the timelines; the profile; the chip at the end of the window; the listing of each
/// node, which is folded if a node in front of it has the same program; and beside the listings the
/// source, its lines numbered from 1. Fails only when out of memory.
/// (The page is this project's own: profile.)
#[tactic(auto, unfolding(crate::specs::Page::page_text))]
pub fn page_text(alloc: Global, page: &Page<'_>) -> Result<String, AllocError>
    ensures { IfOk result (λ text. string_bytes text
        ≡ page_text page.now.headline.now page.now.profile.now page.now.timeline.now
        page.now.close_up page.now.profile_text.now (map section_view page.now.listing.now)
        page.now.source.now) }
{
    let mut text = String::new(alloc);
    let nodes = page.profile.nodes.as_slice();
    push_head(&mut text, page.headline)?;
    push_timeline(&mut text, alloc, nodes, page.timeline)?;
    push_close_up(&mut text, alloc, nodes, page.close_up)?;
    push_preformatted(&mut text, "Profile", page.profile_text)?;
    push_picture(&mut text, &page.profile.chip, nodes)?;
    push_listing_column(&mut text, page.listing)?;
    push_source_column(&mut text, page.source)?;
    push_closing(&mut text)?;
    Ok(text)
}

/// Adds the first of two columns: the listings of nodes.
fn push_listing_column(text: &mut String, listing: &[CountedSection]) -> Result<(), AllocError>
    ensures { OnOk result (string_bytes text.new
        ≡ string_bytes text.old ++ listing_column (map section_view listing.now)) }
{
    text.push_str("<div class='beside'><div>\n")?;
    push_listing(text, listing)?;
    text.push_str("</div>\n")?;
    Ok(())
}

/// Adds the second: a source text.
#[tactic(auto, unfolding(crate::specs::Page::source_column))]
fn push_source_column(text: &mut String, source: &str) -> Result<(), AllocError>
    ensures { OnOk result (string_bytes text.new
        ≡ string_bytes text.old ++ source_column source.now) }
{
    text.push_str("<div>\n")?;
    push_source(text, source)?;
    text.push_str("</div></div>\n")
}

/// Adds the head of a page, and its headline.
#[tactic(auto, unfolding(crate::specs::Page::head))]
fn push_head(text: &mut String, headline: &str) -> Result<(), AllocError>
    ensures { OnOk result (string_bytes text.new
        ≡ string_bytes text.old ++ head headline.now) }
{
    push_opening(text)?;
    push_escaped(text, headline)?;
    push_style(text)?;
    push_escaped(text, headline)?;
    push_remark(text)
}

/// Adds the begin of a page, up to its title.
#[tactic(auto, unfolding(crate::specs::Page::OPENING))]
fn push_opening(text: &mut String) -> Result<(), AllocError>
    ensures { OnOk result (string_bytes text.new ≡ string_bytes text.old ++ OPENING) }
{
    let parts = [
        "<!DOCTYPE html>\n<html lang='en'><head><meta charset='utf-8'/>\n",
        "<meta name='viewport' content='width=device-width,initial-scale=1'/>\n",
        "<title>",
    ];
    push_parts(text, &parts)
}

/// Adds what stands below the headline.
#[tactic(auto, unfolding(crate::specs::Page::REMARK))]
fn push_remark(text: &mut String) -> Result<(), AllocError>
    ensures { OnOk result (string_bytes text.new ≡ string_bytes text.old ++ REMARK) }
{
    text.push_str("</h1>\n<p>Turns aren't time on a chip.</p>\n")
}

/// Adds the end of a page.
#[tactic(auto, unfolding(crate::specs::Page::CLOSING))]
fn push_closing(text: &mut String) -> Result<(), AllocError>
    ensures { OnOk result (string_bytes text.new ≡ string_bytes text.old ++ CLOSING) }
{
    text.push_str("</main></body></html>\n")
}

/// Adds a text as it is laid out, under a heading.
#[tactic(auto, unfolding(crate::specs::Page::preformatted))]
fn push_preformatted(text: &mut String, heading: &str, shown: &str) -> Result<(), AllocError>
    ensures { OnOk result (string_bytes text.new
        ≡ string_bytes text.old ++ preformatted heading.now shown.now) }
{
    push_heading(text, heading)?;
    push_escaped(text, shown)?;
    text.push_str("</pre>\n")
}

/// Adds a heading, and the begin of a text as it is laid out.
#[tactic(auto, unfolding(crate::specs::Page::heading))]
fn push_heading(text: &mut String, shown: &str) -> Result<(), AllocError>
    ensures { OnOk result (string_bytes text.new
        ≡ string_bytes text.old ++ heading shown.now) }
{
    write!(text, "<h2>{shown}</h2>\n<pre tabindex='0'>")
}
