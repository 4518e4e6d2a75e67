ghost use Rattle.std.specs.Prelude.{◌≡◌, IfOk, map, option_map, slice_get};
ghost use Rattle.ga_pack.specs.Model.Text.{Place as model};
ghost use Rattle.ga_source.specs.Token.{place_of};
ghost use Rattle.ga_list.specs.Lines.{line_from};

use crate::listing::places_at;
use ga_asm::{Images, word_places};
use ga_place::Node;
use ga_source::{Place, Program};
use std::alloc::{AllocError, Global};

/// The line of the text, counted from 1, in which the word at an address of a node begins: the line
/// that [`crate::list`] shows for the word. `None` if the node has no image, or no such word. The
/// images are those of the program. Fails only when out of memory.
pub fn line_of(
    alloc: Global,
    program: &Program<'_>,
    images: &Images,
    node: Node,
    address: usize,
) -> Result<Option<usize>, AllocError>
    ensures { IfOk result (λ line. line ≡ line_from program.now 0 images.now node address) }
{
    let found = program.section_places(alloc)?;
    let images = images.images();
    for section in 0..images.len() {
        if let Some((other, image)) = images.get_index(section) {
            if *other == node {
                let own = places_at(found.as_slice(), section);
                let places = word_places(alloc, program, section, own, image)?;
                return Ok(line_at(&places, address));
            }
        }
    }
    Ok(None)
}

/// The line of the place with an index.
fn line_at(places: &[Place], index: usize) -> Option<usize>
    ensures { result ≡ option_map (λ (place : model). place.line)
        (slice_get (map place_of places.now) index) }
{
    match places.get(index) {
        Some(place) => Some(place.line),
        None => None,
    }
}
