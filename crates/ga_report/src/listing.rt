//! The listing, node by node.
ghost use Rattle.std.specs.Prelude.{◌≡◌, ◌++◌, OnOk, map, string_bytes};
ghost use Rattle.ga_counts.specs.Listing.{section_view};
ghost use Rattle.ga_report.specs.Listing.{begin_text, listing_part, same_text, section_part};

use crate::escape::push_escaped;
use ga_counts::CountedSection;
use ga_place::Node;
use std::alloc::AllocError;
use std::fmt::Write;

/// Adds the listings of nodes.
#[tactic(auto, unfolding(crate::specs::Listing::listing_part))]
pub(crate) fn push_listing(text: &mut String, sections: &[CountedSection]) -> Result<(), AllocError>
    ensures { OnOk result (string_bytes text.new
        ≡ string_bytes text.old ++ listing_part (map section_view sections.now)) }
{
    text.push_str("<h2>Listing</h2>\n")?;
    for section in sections {
        push_section(text, section)?;
    }
    Ok(())
}

/// Adds the listing of a node: its first line, and below it the others.
#[tactic(auto, unfolding(crate::specs::Listing::section_part))]
fn push_section(text: &mut String, section: &CountedSection) -> Result<(), AllocError>
    ensures { OnOk result (string_bytes text.new
        ≡ string_bytes text.old ++ section_part (section_view section.now)) }
{
    text.push_str(begin_text(section.same_as))?;
    push_escaped(text, section.line.as_str())?;
    push_same(text, section.same_as)?;
    text.push_str("</summary>\n<pre tabindex='0'>")?;
    push_escaped(text, section.rows.as_str())?;
    text.push_str("</pre></details>\n")?;
    Ok(())
}

/// The begin of a node's listing, by the node in front of it that has the same program.
fn begin_text(same_as: Option<Node>) -> &'static str
    ensures { result.now ≡ begin_text same_as }
{
    match same_as {
        Some(_) => "<details><summary>",
        None => "<details open=''><summary>",
    }
}

/// Adds which node in front of a node has the same program, if one has.
fn push_same(text: &mut String, same_as: Option<Node>) -> Result<(), AllocError>
    ensures { OnOk result (string_bytes text.new
        ≡ string_bytes text.old ++ same_text same_as) }
{
    match same_as {
        Some(node) => write!(text, "(the same program as {node})"),
        None => Ok(()),
    }
}
