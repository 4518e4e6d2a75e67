ghost use Rattle.std.specs.Prelude.{◌≡◌, ◌≤◌, length, map, IfOk, List};
ghost use Rattle.ga_pack.specs.Model.Layout.{Labels, Laid};
ghost use Rattle.ga_pack.specs.Model.Source as grammar;
ghost use Rattle.ga_disasm.specs.Instructions.{named_items};
ghost use Rattle.ga_disasm.specs.Disassembling.{items_of, item_view};

use crate::item::Item;
use ga_pack::{decode, followers};
use ga_word::Word18;
use std::alloc::{AllocError, Global};

/// What each of a node's words is, of which the first, `code_len` words, are code.
///
/// From the front each word is [`Item::Code`], and as many words as it has followers are
/// [`Item::Follower`], as far as the code reaches. All words behind the code are [`Item::Data`]. So
/// of the words and the length of code that the assembler makes of a node's source items, the items
/// are these instructions again, with the fillers behind them. Fails only when out of memory.
pub fn items(alloc: Global, words: &[Word18], code_len: usize) -> Result<Vec<Item>, AllocError>
    requires { code_len ≤ length words.now }
    ensures items { IfOk result (λ items. map item_view items.items ≡ items_of code_len words.now) }
    // of words that source items are laid as, the items that the layout names: only fillers are
    // added
    ensures instructions { IfOk result (λ items. (source : List grammar.Item) (labels : Labels)
        → grammar.Items grammar.start source → (laid : Laid source words.now labels code_len)
        → map item_view items.items ≡ named_items labels laid.groups) }
{
    let mut items = Vec::new(alloc);
    let mut owed = 0;
    for (index, word) in words.iter().enumerate() {
        if index >= code_len {
            items.push(Item::Data(*word))?;
        } else if owed > 0 {
            owed -= 1;
            items.push(Item::Follower(*word))?;
        } else {
            let packed = decode(*word);
            owed = followers(&packed);
            items.push(Item::Code(packed))?;
        }
    }
    Ok(items)
}
