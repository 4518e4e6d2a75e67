//! P as an offset from a label.
ghost use Rattle.std.specs.Prelude.{◌≡◌, ◌==◌, ◌++◌, ◌∷◌, [], OnOk, if◌then◌else◌, string_bytes};
ghost use Rattle.std.specs.Fmt.{decimal};
ghost use Rattle.ga_asm.specs.Image.{image_of, labels_of};
ghost use Rattle.ga_waits.specs.Label as spec;
ghost use Rattle.ga_waits.specs.Label.{images_in, label_in, label_text};

use ga_asm::{Images, label_at};
use ga_place::{Node, Where};
use indexmap::IndexMap;
use std::alloc::AllocError;
use std::fmt::Write;

/// Adds the last label at or before the word that an address of a node reaches, if that is in RAM
/// and the node has an image.
pub fn push_label(
    text: &mut String,
    images: Option<&Images>,
    node: Node,
    at: Where,
) -> Result<(), AllocError>
    ensures { OnOk result (string_bytes text.new
        ≡ string_bytes text.old ++ label_in (image_of (images_in images.entry) node) at) }
{
    let Some(image) = images.and_then(|images| images.image_of(node)) else {
        return Ok(());
    };
    let Where::Ram(index) = at else {
        return Ok(());
    };
    push_nearest(text, image.labels(), index)
}

/// Adds the last label at or before an index of RAM behind a space, and how far the index is behind
/// it.
#[tactic(auto, unfolding(crate::specs::Label::label_text))]
fn push_nearest(
    text: &mut String,
    labels: &IndexMap<String, u8>,
    index: u8,
) -> Result<(), AllocError>
    ensures { OnOk result (string_bytes text.new
        ≡ string_bytes text.old ++ label_text (labels_of labels.now.entries) index) }
{
    let Some(at) = nearest(labels, index) else {
        return Ok(());
    };
    let Some(name) = label_at(labels, u32::from(at)) else {
        return Ok(());
    };
    write!(text, " {name}")?;
    push_distance(text, index.saturating_sub(at))
}

/// Adds the distance of P from a label, if it isn't 0.
fn push_distance(text: &mut String, distance: u8) -> Result<(), AllocError>
    ensures { OnOk result (string_bytes text.new
        ≡ string_bytes text.old ++ (if distance == 0 then [] else 43 ∷ decimal distance)) }
{
    if distance > 0 {
        write!(text, "+{distance}")?;
    }
    Ok(())
}

/// The greatest address of a label at or before an index.
fn nearest(labels: &IndexMap<String, u8>, index: u8) -> Option<u8>
    ensures { result ≡ spec.nearest (labels_of labels.now.entries) index }
{
    let mut found = None;
    for (_, at) in labels {
        found = nearer(index, found, *at);
    }
    found
}

/// The address found so far, or that of one more label, if that is at or before an index and behind
/// the one found.
fn nearer(index: u8, found: Option<u8>, at: u8) -> Option<u8>
    ensures { result ≡ spec.nearer index found at }
{
    match found {
        Some(found) if at <= index && found < at => Some(at),
        Some(found) => Some(found),
        None if at <= index => Some(at),
        None => None,
    }
}
