ghost use Rattle.std.specs.Prelude.{◌≤◌, length};

use ga_asm::Image;
use ga_disasm::Item as Word;
use ga_source::{Item, ItemPlace, Place};

/// What is known of a node: the items of its text with their places, its image, what each of its
/// words is, and where each begins in the text.
#[derive(Drop)]
pub(crate) struct NodeText<'a> {
    pub(crate) items: &'a [Item],
    pub(crate) item_places: &'a [ItemPlace],
    pub(crate) image: &'a Image,
    pub(crate) words: &'a [Word],
    pub(crate) word_places: &'a [Place],
    ghost few: { length words.now ≤ 64 },
}
