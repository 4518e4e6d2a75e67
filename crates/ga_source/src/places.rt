//! The places of the items of a program in its text. The parser doesn't keep them, since only
//! faults are reported with places.
ghost use Rattle.std.specs.Prelude.{◌≡◌, IfOk, [], drop, length, map};
ghost use Rattle.ga_pack.specs.Model.Program as model;
ghost use Rattle.ga_pack.specs.Model.Program.{placed_items};
ghost use Rattle.ga_pack.specs.Model.Source.{item_tokens, items_tokens};
ghost use Rattle.ga_pack.specs.Model.Text.{places_of};
ghost use Rattle.ga_source.specs.Item.{item_of};
ghost use Rattle.ga_source.specs.Program.{item_place, item_place_of, items_at};
ghost use Rattle.ga_source.specs.Token.{place_of};

use crate::item::{Item, Value};
use crate::program::Program;
use crate::token::{Place, end_place, tokens};
use std::alloc::{AllocError, Global};

/// The place of an item in its text.
#[derive(Clone, Copy, PartialEq, Eq)]
pub struct ItemPlace {
    /// The place of its first token.
    pub place: Place,
    /// The place of the name of a label, if the item uses one as a destination or a word.
    pub name: Option<Place>,
}

impl<'a> Program<'a> {
    /// The places of the items of a section in the text, in their order. The section is given by
    /// its number, from 0; a section that doesn't exist has no items. Fails only when out of
    /// memory.
    pub fn places(&self, alloc: Global, section: usize) -> Result<Vec<ItemPlace>, AllocError>
        ensures { IfOk result (λ places. map item_place_of places.items
            ≡ map item_place (items_at self.now section)) }
    {
        let places = all_places(alloc, self.text)?;
        let mut rest = places.as_slice();
        let mut before = section;
        for (_, part) in &self.sections {
            let items = part.items.as_slice();
            // `node` and the name come before them.
            let first = behind(rest, 2);
            if before == 0 {
                return places_from(alloc, first, items);
            }
            before -= 1;
            rest = behind_items(first, items);
        }
        Ok(Vec::new(alloc))
    }

    /// The places of the items of each section, in the text's order, as `places` returns them, in
    /// one pass over the text. Fails only when out of memory.
    pub fn section_places(&self, alloc: Global) -> Result<Vec<Vec<ItemPlace>>, AllocError>
        ensures { IfOk result (λ found. map (λ places. map item_place_of places.items) found.items
            ≡ map (λ section. map item_place section.items) self.now) }
    {
        let places = all_places(alloc, self.text)?;
        let mut rest = places.as_slice();
        let mut found = Vec::new(alloc);
        for (_, part) in &self.sections {
            let items = part.items.as_slice();
            // `node` and the name come before them.
            let first = behind(rest, 2);
            let own = places_from(alloc, first, items)?;
            found.push(own)?;
            rest = behind_items(first, items);
        }
        Ok(found)
    }
}

/// The place of a token, by its number from 0, or of the text's end behind the last one.
pub(crate) fn token_place(alloc: Global, text: &str, token: usize) -> Result<Place, AllocError>
    ensures { IfOk result (λ place. place_of place ≡ model.place_at (places_of text.now) token) }
{
    let places = all_places(alloc, text)?;
    Ok(place_at(places.as_slice(), token))
}

// The places of the tokens of a text, and that of its end.
fn all_places(alloc: Global, text: &str) -> Result<Vec<Place>, AllocError>
    ensures { IfOk result (λ places. map place_of places.items ≡ places_of text.now) }
{
    let tokens = tokens(alloc, text)?;
    let mut places = Vec::new(alloc);
    for token in &tokens {
        places.push(Place {
            line: token.line,
            column: token.column,
        })?;
    }
    places.push(end_place(text))?;
    Ok(places)
}

// The places from an index on.
fn behind(places: &[Place], count: usize) -> &[Place]
    ensures { result.now ≡ drop count places.now }
{
    &places[count.min(places.len())..]
}

// Those behind the tokens of items.
fn behind_items<'a>(places: &'a [Place], items: &[Item]) -> &'a [Place]
    ensures { result.now ≡ drop (length (items_tokens (map item_of items.now) [])) places.now }
{
    let mut rest = places;
    for item in items {
        rest = behind(rest, item.token_count());
    }
    rest
}

// The places of items. `places` has those of their tokens and of tokens behind them.
fn places_from(
    alloc: Global,
    places: &[Place],
    items: &[Item],
) -> Result<Vec<ItemPlace>, AllocError>
    ensures { IfOk result (λ found. map item_place_of found.items
        ≡ map item_place (placed_items (map place_of places.now) (map item_of items.now))) }
{
    let mut found = Vec::new(alloc);
    let mut rest = places;
    for item in items {
        found.push(item_place(rest, item))?;
        rest = behind(rest, item.token_count());
    }
    Ok(found)
}

// The place of an item. `places` has those of its tokens and of tokens behind them.
fn item_place(places: &[Place], item: &Item) -> ItemPlace
    ensures { item_place_of result
        ≡ item_place (model.placed (map place_of places.now) (item_of item.now)) }
{
    let name = match item.name_token() {
        Some(at) => Some(place_at(places, at)),
        None => None,
    };
    ItemPlace {
        place: place_at(places, 0),
        name,
    }
}

// The place of a token, by its number from 0.
fn place_at(places: &[Place], at: usize) -> Place
    ensures { place_of result ≡ model.place_at (map place_of places.now) at }
{
    match places.get(at) {
        Some(place) => *place,
        None => Place { line: 1, column: 1 },
    }
}

impl Item {
    // How many tokens the item has.
    #[tactic(auto, using(crate::proofs::ItemPlaces::word_count, crate::proofs::ItemPlaces::word_to_count, crate::proofs::ItemPlaces::word_spare_count))]
    fn token_count(&self) -> usize
        ensures { result ≡ length (item_tokens (item_of self.now) []) }
    {
        match self {
            Item::Transfer { .. } | Item::Plain(_) => 2,
            Item::Word(ops) => ops.len() + 2,
            Item::WordTo(word) => match word.spare {
                Some(_) => word.ops.len() + 6,
                None => word.ops.len() + 4,
            },
            _ => 1,
        }
    }

    // Which of the item's tokens, from 0, is the name of a label that it uses.
    fn name_token(&self) -> Option<usize>
        ensures { result ≡ model.name_token (item_of self.now) }
    {
        match self {
            Item::Transfer {
                dest: Value::Label(_),
                ..
            }
            | Item::Plain(Value::Label(_)) => Some(1),
            Item::WordTo(word) if matches!(word.dest, Value::Label(_)) => Some(word.ops.len() + 2),
            _ => None,
        }
    }
}
