ghost use Rattle.std.specs.Prelude.{◌≡◌, ◌≢◌, ◌++◌, [], IfErr, IfOk, OnOk, map, slice_get, string_bytes};
ghost use Rattle.std.specs.Option.{option_map_or};
ghost use Rattle.ga_asm.specs.Text.{AtMostOne, IsTextFault};
ghost use Rattle.ga_asm.specs.declared.text.TextError.TheVariants.{Memory};
ghost use Rattle.ga_list.specs.Listing.{HasListing, HasNamedListing, IsListingOf, IsNamedListingOf, listing_from, node_listing};
ghost use Rattle.ga_source.specs.Token.{place_of};

use crate::line_names::{LineNames, LineNumbers};
use crate::row::push_rows;
use ga_asm::{Image, Images, TextError, assemble, word_places};
use ga_place::Node;
use ga_source::{ItemPlace, Place, Program, parse};
use std::alloc::{AllocError, Global};

/// The listing of a source text, or its first fault, as `assemble_text` reports it.
///
/// For each node it has the line that `asm` writes for the node, and then a line for each of its
/// words: the address in three hex digits, the word in five, `code`, `follower` or `data`, the line
/// of the text in which its first item is, and the word's instructions, in source text. A
/// destination that means the address of a label is written as the first such label. Each label has
/// a line of its own before its word. (The text is this project's own: profile.) Fails with
/// `Memory` only when out of memory.
#[tactic(auto, using(crate::proofs::OneListing::one_listing))]
pub fn list(alloc: Global, text: &str) -> Result<String, TextError>
    ensures listing { IfOk result (λ listing. HasListing text.now (string_bytes listing)) }
    ensures fault { IfErr result (λ fault. fault ≢ Memory → IsTextFault text.now fault) }
    // a text has one listing, or one first fault
    ensures only { AtMostOne (IsListingOf text.now) }
{
    list_with(alloc, text, &LineNumbers)
}

/// The same listing, which shows in place of the line's number what the names have for the place of
/// the word's first item.
#[tactic(auto, using(crate::proofs::OneListing::one_named_listing))]
pub fn list_with<N: LineNames>(alloc: Global, text: &str, names: &N) -> Result<String, TextError>
    ensures listing { IfOk result (λ listing.
        HasNamedListing (N.names names.now) text.now (string_bytes listing)) }
    ensures fault { IfErr result (λ fault. fault ≢ Memory → IsTextFault text.now fault) }
    // with these names a text has one listing, or one first fault
    ensures only { AtMostOne (IsNamedListingOf (N.names names.now) text.now) }
{
    let program = parse(alloc, text)?;
    let images = assemble(alloc, &program)?;
    match listing_of(alloc, &program, &images, names) {
        Ok(listing) => Ok(listing),
        Err(_) => Err(TextError::Memory),
    }
}

/// The listing of the images of a program.
fn listing_of<N: LineNames>(
    alloc: Global,
    program: &Program<'_>,
    images: &Images,
    names: &N,
) -> Result<String, AllocError>
    ensures { IfOk result (λ text. string_bytes text
        ≡ listing_from (N.names names.now) program.now 0 images.now) }
{
    let mut text = String::new(alloc);
    let found = program.section_places(alloc)?;
    let images = images.images();
    for section in 0..images.len() {
        if let Some((node, image)) = images.get_index(section) {
            let own = places_at(found.as_slice(), section);
            let places = word_places(alloc, program, section, own, image)?;
            push_node(alloc, &mut text, *node, image, &places, names)?;
        }
    }
    Ok(text)
}

/// The places of the items of a section, by its number.
pub(crate) fn places_at(found: &[Vec<ItemPlace>], section: usize) -> &[ItemPlace]
    ensures { result.now
        ≡ option_map_or (λ places. places.items) (slice_get found.now section) [] }
{
    match found.get(section) {
        Some(places) => places.as_slice(),
        None => &[],
    }
}

/// Adds the listing of a node's image, whose words begin at these places of the text.
fn push_node<N: LineNames>(
    alloc: Global,
    text: &mut String,
    node: Node,
    image: &Image,
    places: &[Place],
    names: &N,
) -> Result<(), AllocError>
    ensures { OnOk result (string_bytes text.new ≡ string_bytes text.old
        ++ node_listing (N.names names.now) node image.now (map place_of places.now)) }
{
    image.push_line(text, node)?;
    push_rows(alloc, text, image, places, names)?;
    Ok(())
}
