//! The listing of a node, with its counts.
ghost use Rattle.std.specs.Prelude.{◌≡◌, IfOk, map, string_bytes};
ghost use Rattle.ga_source.specs.Token.{place_of};
ghost use Rattle.ga_counts.specs.Listing as spec;
ghost use Rattle.ga_counts.specs.Listing.{node_rows, section_view};

use crate::columns::push_head;
use crate::counts::Counts;
use crate::row::push_rows;
use ga_asm::Image;
use ga_place::Node;
use ga_source::Place;
use indexmap::IndexMap;
use std::alloc::{AllocError, Global};

/// The listing of a node, with its counts.
#[derive(Drop)]
pub struct CountedSection {
    pub node: Node,
    /// The first node in front of it that has the same words and the same entry.
    pub same_as: Option<Node>,
    /// The line of its image.
    pub line: String,
    /// The heads of the columns, and the lines of its words.
    pub rows: String,
}

/// The listing of a node among these images, whose words begin at these places of the text.
pub(crate) fn section_of(
    alloc: Global,
    images: &IndexMap<Node, Image>,
    node: Node,
    image: &Image,
    places: &[Place],
    before: usize,
    counts: &Counts,
) -> Result<CountedSection, AllocError>
    ensures { IfOk result (λ section. section_view section
        ≡ spec.section_of counts.now.words.items before images.now.entries node image.now
        (map place_of places.now)) }
{
    let mut line = String::new(alloc);
    image.push_line(&mut line, node)?;
    let rows = rows_of(alloc, node, image, places, before, counts)?;
    Ok(CountedSection {
        node,
        same_as: same_before(images, node, image),
        line,
        rows,
    })
}

/// The heads of the columns, and the lines of a node's words.
fn rows_of(
    alloc: Global,
    node: Node,
    image: &Image,
    places: &[Place],
    before: usize,
    counts: &Counts,
) -> Result<String, AllocError>
    ensures { IfOk result (λ rows. string_bytes rows
        ≡ node_rows counts.now.words.items before node image.now (map place_of places.now)) }
{
    let mut rows = String::new(alloc);
    push_head(&mut rows)?;
    push_rows(alloc, &mut rows, counts, node, places, before, image)?;
    Ok(rows)
}

/// The first node in front of a node that has the same program.
fn same_before(images: &IndexMap<Node, Image>, node: Node, image: &Image) -> Option<Node>
    ensures { result ≡ spec.same_before images.now.entries node image.now }
{
    for (other, its) in images {
        if *other == node {
            return None;
        }
        if is_same_program(its, image) {
            return Some(*other);
        }
    }
    None
}

/// Whether two images have the same words and the same entry.
fn is_same_program(one: &Image, other: &Image) -> bool
    ensures { result ≡ spec.is_same_program one.now other.now }
{
    one.words() == other.words() && one.entry() == other.entry()
}
