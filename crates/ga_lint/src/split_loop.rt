ghost use Rattle.std.specs.Prelude.{◌≡◌};
ghost use Rattle.ga_disasm.specs.Disassembling.{item_view};
ghost use Rattle.ga_lint.specs.SplitLoop as spec;
ghost use Rattle.ga_lint.specs.inner.NodeText.{node_of};
ghost use Rattle.ga_source.specs.Item.{item_of};

use crate::node_text::NodeText;
use crate::unext_repeats::has_unext;
use ga_disasm::Item as Word;
use ga_source::Item;

/// Whether the word at an address has an `unext`, and begins where the packing put it.
pub(crate) fn split_loop(node: &NodeText<'_>, address: usize) -> bool
    ensures { result ≡ spec.split_loop (node_of node.now) address }
{
    match node.words.get(address) {
        Some(word) => has_unext_in(word) && is_split_at(node, node.first_item(address)),
        None => false,
    }
}

fn has_unext_in(word: &Word) -> bool
    ensures { result ≡ spec.has_unext_in (item_view word.now) }
{
    match word {
        Word::Code(packed) => has_unext(packed.ops.as_slice()),
        _ => false,
    }
}

/// Whether an item stands outside brackets, behind another one.
fn is_split_at(node: &NodeText<'_>, first: Option<usize>) -> bool
    ensures { result ≡ spec.is_split_at (node_of node.now).items first }
{
    match first {
        Some(index) if index > 0 => leaves_room_at(node, index - 1) && node.is_loose_at(index),
        _ => false,
    }
}

fn leaves_room_at(node: &NodeText<'_>, index: usize) -> bool
    ensures { result ≡ spec.leaves_room_at (node_of node.now).items index }
{
    match node.items.get(index) {
        Some(item) => leaves_room(item),
        None => false,
    }
}

/// Whether another item outside brackets may join the word of an item.
fn leaves_room(item: &Item) -> bool
    ensures { result ≡ spec.leaves_room (item_of item.now) }
{
    match item {
        Item::Instruction(op) | Item::Transfer { op, .. } => !op.ends_word(),
        Item::Literal(_) => true,
        _ => false,
    }
}
