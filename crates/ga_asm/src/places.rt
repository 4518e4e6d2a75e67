//! The places at which the words of an image begin in the text of its program.
ghost use Rattle.std.specs.Prelude.{◌≡◌, ◌+◌, ◌++◌, ◌≤◌, IfOk, OnOk, drop, length, map, take};
ghost use Rattle.ga_pack.specs.Model.Program as model;
ghost use Rattle.ga_source.specs.Program.{item_place, item_place_of, items_at};
ghost use Rattle.ga_source.specs.Token.{place_of};
ghost use Rattle.ga_asm.specs.Image.{IsImage};
ghost use Rattle.ga_asm.specs.Places as spec;
ghost use Rattle.ga_asm.specs.Places.{indices_in_group, literal_indices};
ghost use Rattle.ga_asm.specs.inner.Layout.{plain};

use crate::image::Image;
use ga_source::{Item, ItemPlace, Place, Program};
use std::alloc::{AllocError, Global};

/// The place in the text of the first item of each word of an image, in the order of the words: a
/// word that items share begins with the first of them, and a follower with the number that it is.
/// The image is that of the program's section with this number, from 0, whose items have these
/// places, and there are as many places as it has words. Fails only when out of memory.
pub fn word_places(
    alloc: Global,
    program: &Program<'_>,
    section: usize,
    found: &[ItemPlace],
    image: &Image,
) -> Result<Vec<Place>, AllocError>
    // as `places` of the program answers, or `section_places` for the section
    requires { map item_place_of found.now
        ≡ map item_place (items_at program.now section) }
    ensures places { IfOk result (λ places. map place_of places.items
        ≡ spec.word_places image.now.item_counts (items_at program.now section)) }
    // as many as words, if it is the image of that section
    ensures count { IfOk result (λ places.
        IsImage (map (λ placed. placed.item) (items_at program.now section)) image.now
        → length places.items ≡ length image.now.words) }
{
    let items = items_of(program, section);
    let indices = first_items(alloc, image.item_counts(), items)?;
    let mut places = Vec::with_capacity(alloc, indices.len())?;
    for index in &indices {
        places.push(place_at(found, *index))?;
    }
    Ok(places)
}

// The items of a section, by its number.
fn items_of<'a>(program: &'a Program<'_>, section: usize) -> &'a [Item]
    ensures { plain result.now ≡ map (λ placed. placed.item) (items_at program.now section) }
{
    match program.sections().get_index(section) {
        Some((_, part)) => part.items.as_slice(),
        None => &[],
    }
}

// The place of an item, by its index.
fn place_at(places: &[ItemPlace], index: usize) -> Place
    ensures { place_of result
        ≡ model.place_at (map (λ found. place_of found.place) places.now) index }
{
    match places.get(index) {
        Some(found) => found.place,
        None => Place { line: 1, column: 1 },
    }
}

// The indices of the items with which words begin, for groups with these numbers of items.
fn first_items(alloc: Global, counts: &[usize], items: &[Item]) -> Result<Vec<usize>, AllocError>
    ensures { IfOk result (λ indices. indices.items
        ≡ spec.first_items 0 counts.now (plain items.now)) }
{
    let mut indices = Vec::new(alloc);
    let mut rest = items;
    let mut at = 0;
    for count in counts {
        let (group, behind) = split_front(rest, *count);
        push_group(&mut indices, at, group)?;
        at += group.len();
        rest = behind;
    }
    Ok(indices)
}

// The first `count` items, or fewer if there are fewer, and the rest.
fn split_front(items: &[Item], count: usize) -> (&[Item], &[Item])
    ensures front { result.0.now ≡ take count items.now }
    ensures back { result.1.now ≡ drop count items.now }
{
    items.split_at(items.len().min(count))
}

// The indices of the items with which the words of a group begin, the first of which has an index.
fn push_group(indices: &mut Vec<usize>, at: usize, group: &[Item]) -> Result<(), AllocError>
    requires { at + length group.now ≤ usize.MAX }
    ensures { OnOk result (indices.new.items
        ≡ indices.old.items ++ indices_in_group at (plain group.now)) }
{
    if let Some(first) = group.first() {
        if first.makes_word() {
            indices.push(at)?;
        }
    }
    push_literals(indices, at, group)
}

// The indices of the items that are numbers, the first of which has an index.
fn push_literals(indices: &mut Vec<usize>, at: usize, items: &[Item]) -> Result<(), AllocError>
    requires { at + length items.now ≤ usize.MAX }
    ensures { OnOk result (indices.new.items
        ≡ indices.old.items ++ literal_indices at (plain items.now)) }
{
    for (index, item) in items.iter().enumerate() {
        if let Item::Literal(_) = item {
            indices.push(at + index)?;
        }
    }
    Ok(())
}
