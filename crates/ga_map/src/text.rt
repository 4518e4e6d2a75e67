ghost use Rattle.std.specs.Prelude.{◌≡◌, IfOk, string_bytes};
ghost use Rattle.ga_waits.specs.Label.{images_in};
ghost use Rattle.ga_map.specs.Map.{map_text};

use crate::behind::{push_behind, stuck_names};
use crate::pending::push_pending;
use crate::picture::{push_legend, push_picture};
use crate::rings::push_ring_nodes;
use ga_asm::Images;
use ga_chip::Chip;
use ga_waits::push_rings;
use std::alloc::{AllocError, Global};

/// The chip as a picture, 8 rows of 18 nodes: what each node does, and between two neighbours
/// whether a word is pending, or went there. Behind it what the signs mean, a line for each pending
/// word with its reader, a line for each ring with where its nodes are, and the names of the other
/// nodes that wait for good. With images an address has its label. Each line ends with LF. Fails
/// only when out of memory. (The text is this project's own: profile.)
#[tactic(auto, unfolding(crate::specs::Map::map_text))]
pub fn map(alloc: Global, chip: &Chip, images: Option<&Images>) -> Result<String, AllocError>
    ensures { IfOk result (λ text. string_bytes text
        ≡ map_text (images_in images.entry) chip.now) }
{
    let mut text = String::new(alloc);
    push_picture(&mut text, alloc, chip)?;
    push_legend(&mut text)?;
    push_pending(&mut text, chip, images)?;
    push_rings(&mut text, chip)?;
    push_ring_nodes(&mut text, chip, images)?;
    let names = stuck_names(alloc, chip)?;
    push_behind(&mut text, names.as_str())?;
    Ok(text)
}
