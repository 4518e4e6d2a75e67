//! The listing of a source text, with its counts.
ghost use Rattle.std.specs.Prelude.{◌≡◌, ◌≢◌, ◌++◌, [], IfErr, IfOk, OnOk, map, slice_get, string_bytes};
ghost use Rattle.std.specs.Option.{option_map_or};
ghost use Rattle.ga_asm.specs.Text.{AtMostOne, IsTextFault};
ghost use Rattle.ga_asm.specs.declared.text.TextError.TheVariants.{Memory};
ghost use Rattle.ga_counts.specs.Listing as spec;
ghost use Rattle.ga_counts.specs.Listing.{AreCountedSectionsOf, HasCountedListing, HasCountedSections, IsCountedListingOf, section_view, sections_from};

use crate::counts::Counts;
use crate::section::{CountedSection, section_of};
use ga_asm::{Images, TextError, assemble, word_places};
use ga_source::{ItemPlace, Program, parse};
use std::alloc::{AllocError, Global};

/// The listings of the nodes of a source text, with how often each word was fetched and each slot's
/// opcode run; or the text's first fault, as `assemble_text` reports it.
///
/// A listing has the lines of `list`, with a head behind the line of the node and columns of counts
/// in front of the address of each word: how often the word was fetched, and, for each slot that
/// has an opcode, how often the opcode ran if that is another number. A dot is 0. A star marks a
/// word whose highest count is at least half of its node's, where a word that only jumps to itself
/// is left out. The number of a word's line has `lines_before` added. (The text is this project's
/// own: profile.) Fails with `Memory` only when out of memory.
#[tactic(auto, using(crate::proofs::OneListing::one_section_list))]
pub fn counted_sections(
    alloc: Global,
    text: &str,
    lines_before: usize,
    counts: &Counts,
) -> Result<Vec<CountedSection>, TextError>
    ensures sections { IfOk result (λ sections. HasCountedSections text.now lines_before
        counts.now.words.items (map section_view sections.items)) }
    ensures fault { IfErr result (λ fault. fault ≢ Memory → IsTextFault text.now fault) }
    // a text has one listing of its nodes, or one first fault
    ensures only { AtMostOne (AreCountedSectionsOf text.now lines_before counts.now.words.items) }
{
    let program = parse(alloc, text)?;
    let images = assemble(alloc, &program)?;
    match sections_of(alloc, &program, &images, lines_before, counts) {
        Ok(sections) => Ok(sections),
        Err(_) => Err(TextError::Memory),
    }
}

/// The listing of a source text: those of its nodes, as by [`counted_sections`], one behind the
/// other. Fails as that does.
#[tactic(auto, using(crate::proofs::OneListing::one_listing))]
pub fn counted_list(
    alloc: Global,
    text: &str,
    lines_before: usize,
    counts: &Counts,
) -> Result<String, TextError>
    ensures listing { IfOk result (λ listing. HasCountedListing text.now lines_before
        counts.now.words.items (string_bytes listing)) }
    ensures fault { IfErr result (λ fault. fault ≢ Memory → IsTextFault text.now fault) }
    // a text has one listing, or one first fault
    ensures only { AtMostOne (IsCountedListingOf text.now lines_before counts.now.words.items) }
{
    let sections = counted_sections(alloc, text, lines_before, counts)?;
    match listing_of(alloc, sections.as_slice()) {
        Ok(listing) => Ok(listing),
        Err(_) => Err(TextError::Memory),
    }
}

/// Listings of nodes, one behind the other.
fn listing_of(alloc: Global, sections: &[CountedSection]) -> Result<String, AllocError>
    ensures { IfOk result (λ text. string_bytes text
        ≡ spec.listing_of (map section_view sections.now)) }
{
    let mut text = String::new(alloc);
    for section in sections {
        push_section(&mut text, section)?;
    }
    Ok(text)
}

/// Adds the listing of a node.
fn push_section(text: &mut String, section: &CountedSection) -> Result<(), AllocError>
    ensures { OnOk result (string_bytes text.new ≡ string_bytes text.old
        ++ spec.section_text (section_view section.now)) }
{
    text.push_str(section.line.as_str())?;
    text.push_str(section.rows.as_str())
}

/// The listings of the images of a program.
fn sections_of(
    alloc: Global,
    program: &Program<'_>,
    images: &Images,
    before: usize,
    counts: &Counts,
) -> Result<Vec<CountedSection>, AllocError>
    ensures { IfOk result (λ sections. map section_view sections.items
        ≡ sections_from counts.now.words.items before program.now images.now 0 images.now) }
{
    let mut sections = Vec::new(alloc);
    let found = program.section_places(alloc)?;
    let images = images.images();
    for section in 0..images.len() {
        if let Some((node, image)) = images.get_index(section) {
            let own = places_at(found.as_slice(), section);
            let places = word_places(alloc, program, section, own, image)?;
            sections.push(section_of(alloc, images, *node, image, &places, before, counts)?)?;
        }
    }
    Ok(sections)
}

/// The places of the items of a section, by its number.
fn places_at(found: &[Vec<ItemPlace>], section: usize) -> &[ItemPlace]
    ensures { result.now
        ≡ option_map_or (λ places. places.items) (slice_get found.now section) [] }
{
    match found.get(section) {
        Some(places) => places.as_slice(),
        None => &[],
    }
}
