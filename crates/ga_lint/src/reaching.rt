//! Which words of a node its execution comes to by its own code.
ghost use Rattle.std.specs.Prelude.{◌≡◌, ◌==◌, ◌&&◌, ◌||◌, ◌<◌, ◌≤◌, false, length, map, take};
ghost use Rattle.std.specs.List.{list_any};
ghost use Rattle.std.specs.Option.{option_map_or};
ghost use Rattle.ga_asm.specs.Image.{labels_of};
ghost use Rattle.ga_disasm.specs.Disassembling.{item_view};
ghost use Rattle.ga_lint.specs.NodeView as view;
ghost use Rattle.ga_lint.specs.Reaching as spec;
ghost use Rattle.ga_lint.specs.inner.NodeText.{node_of};
ghost use Rattle.ga_source.specs.Item.{item_of, value_of};

use crate::lookups::{dest_in, land};
use crate::node_text::NodeText;
use ga_disasm::Item as Word;
use ga_place::Where;
use ga_source::{Item, Value};
use ga_word::Op;
use indexmap::IndexMap;

/// Whether the word at an address is code.
pub(crate) fn is_code_at(node: &NodeText<'_>, address: usize) -> bool
    ensures { result ≡ spec.is_code_at (node_of node.now) address }
{
    matches!(node.words.get(address), Some(Word::Code(_)))
}

/// Whether execution begins at an address, or may go to it by a destination or a used label.
pub(crate) fn is_start(node: &NodeText<'_>, address: usize) -> bool
    ensures { result ≡ spec.is_start (node_of node.now) address }
{
    usize::from(node.image.entry()) == address
        || is_target(node.words, address)
        || has_used_label(node.image.labels(), node.items, address)
}

/// Whether the destination of a word means an address.
fn is_target(words: &[Word], address: usize) -> bool
    requires { length words.now ≤ 64 }
    ensures { result ≡ spec.is_target address 0 (map item_view words.now) }
{
    for (at, word) in words.iter().enumerate() {
        if goes_to(at, word, address) {
            return true;
        }
    }
    false
}

/// Whether the destination of the word there means an address.
pub(crate) fn goes_to(at: usize, word: &Word, address: usize) -> bool
    requires { at < 64 }
    ensures { result ≡ option_map_or (λ dest. spec.is_word address (view.lands dest))
        (view.dest_in at (item_view word.now)) false }
{
    match dest_in(at, word) {
        Some(dest) => is_word(address, land(dest)),
        None => false,
    }
}

fn is_word(address: usize, reached: Where) -> bool
    ensures { result ≡ spec.is_word address reached }
{
    match reached {
        Where::Ram(at) => usize::from(at) == address,
        _ => false,
    }
}

/// Whether an address has a label whose name these items use.
fn has_used_label(labels: &IndexMap<String, u8>, items: &[Item], address: usize) -> bool
    ensures { result ≡ list_any (λ label. (label.1 == address)
        && spec.is_used (map item_of items.now) label.0) (labels_of labels.now.entries) }
{
    for (name, at) in labels {
        if usize::from(*at) == address && is_used(items, name.as_str()) {
            return true;
        }
    }
    false
}

/// Whether one of these items uses a name.
fn is_used(items: &[Item], name: &str) -> bool
    ensures { result ≡ spec.is_used (map item_of items.now) name.now }
{
    for item in items {
        if uses(item, name) {
            return true;
        }
    }
    false
}

/// Whether an item uses a name, as a destination or as a plain word.
fn uses(item: &Item, name: &str) -> bool
    ensures { result ≡ spec.uses name.now (item_of item.now) }
{
    match item {
        Item::Transfer { dest, .. } => names_label(dest, name),
        Item::WordTo(word) => names_label(&word.dest, name),
        Item::Plain(value) => names_label(value, name),
        _ => false,
    }
}

fn names_label(value: &Value, name: &str) -> bool
    ensures { result ≡ spec.names_label name.now (value_of value.now) }
{
    match value {
        Value::Number(_) => false,
        Value::Label(label) => name == label.as_str(),
    }
}

/// Whether execution comes to an address from the word before it.
pub(crate) fn comes_on(node: &NodeText<'_>, address: usize) -> bool
    ensures { result ≡ spec.comes_on (node_of node.now) address }
{
    let has_b = sets_b(node.words);
    let words = node.words_before(address);
    let mut comes = false;
    for (at, word) in words.iter().enumerate() {
        comes = match word {
            Word::Code(packed) => {
                (comes || is_start(node, at)) && goes_on(has_b, packed.ops.as_slice())
            }
            Word::Follower(_) => comes,
            Word::Data(_) => false,
        };
    }
    comes
}

/// Whether one of these words sets B.
pub(crate) fn sets_b(words: &[Word]) -> bool
    ensures { result ≡ list_any spec.sets_b_in (map item_view words.now) }
{
    for word in words {
        if sets_b_in(word) {
            return true;
        }
    }
    false
}

fn sets_b_in(word: &Word) -> bool
    ensures { result ≡ spec.sets_b_in (item_view word.now) }
{
    match word {
        Word::Code(packed) => has_b_store(packed.ops.as_slice()),
        _ => false,
    }
}

fn has_b_store(ops: &[Op]) -> bool
    ensures { result ≡ list_any spec.sets_b ops.now }
{
    for op in ops {
        if matches!(op, Op::BStore) {
            return true;
        }
    }
    false
}

/// Whether execution goes on behind a word with these opcodes.
pub(crate) fn goes_on(has_b: bool, ops: &[Op]) -> bool
    ensures { result ≡ spec.goes_on has_b ops.now }
{
    for op in ops {
        if is_last(has_b, *op) {
            return false;
        }
        if op.ends_word() {
            return true;
        }
    }
    true
}

fn is_last(has_b: bool, op: Op) -> bool
    ensures { result ≡ spec.is_last has_b op }
{
    match op {
        Op::Return | Op::Execute | Op::Jump => true,
        Op::FetchB => !has_b,
        _ => false,
    }
}
