//! What an item is in a word.
ghost use Rattle.std.specs.Prelude.{◌≡◌, ◌∷◌, ◌≤◌, [], length};
ghost use Rattle.ga_pack.specs.Model.Layout as laid;
ghost use Rattle.ga_pack.specs.Model.LayoutFault as faults;
ghost use Rattle.ga_source.specs.Item.{item_of};

use ga_source::Item;
use ga_word::Op;

pub(crate) fn is_unext(op: Op) -> bool
    ensures { result ≡ laid.is_unext op }
{
    matches!(op, Op::Micronext)
}

// An item outside brackets is one opcode.
pub(crate) fn is_loose(item: &Item) -> bool
    ensures { result ≡ laid.is_loose (item_of item.now) }
{
    matches!(
        item,
        Item::Instruction(_) | Item::Transfer { .. } | Item::Literal(_)
    )
}

// That opcode.
pub(crate) fn op_of(item: &Item) -> Op
    ensures { result ≡ laid.op_of (item_of item.now) }
{
    match item {
        Item::Instruction(op) | Item::Transfer { op, .. } => *op,
        _ => Op::FetchP,
    }
}

// The followers of a word for the item.
fn literals(item: &Item) -> u8
    ensures count { result ≡ length (laid.literals (item_of item.now ∷ [])) }
    ensures few { result ≤ 1 }
{
    if let Item::Literal(_) = item { 1 } else { 0 }
}

// How many words the item adds.
pub(crate) fn words_added(joined: bool, item: &Item) -> u8
    ensures count { result ≡ faults.words_added joined (item_of item.now) }
    ensures few { result ≤ 2 }
{
    let own = if joined || !item.makes_word() { 0 } else { 1 };
    own + literals(item)
}
