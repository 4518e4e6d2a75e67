ghost use Rattle.std.specs.Prelude.{◌≡◌, ◌==◌, None, map};
ghost use Rattle.std.specs.List.{list_any};
ghost use Rattle.ga_asm.specs.Image.{labels_of};
ghost use Rattle.ga_disasm.specs.Disassembling.{item_view};
ghost use Rattle.ga_lint.specs.Unreachable as spec;
ghost use Rattle.ga_lint.specs.inner.NodeText.{node_of};

use crate::dead_code::is_dead;
use crate::node_text::NodeText;
use ga_disasm::Item;
use indexmap::IndexMap;

/// Whether no execution comes to the word at an address, but to the code before it.
pub(crate) fn unreachable(node: &NodeText<'_>, address: usize) -> bool
    ensures { result ≡ spec.unreachable (node_of node.now) address }
{
    is_dead(node, address)
        && !has_label(node.image.labels(), address)
        && !is_dead_before(node, address)
}

/// Whether no execution comes to the last word of code before an address.
fn is_dead_before(node: &NodeText<'_>, address: usize) -> bool
    ensures { result ≡ spec.is_dead_before (node_of node.now) address }
{
    match last_code(node.words_before(address)) {
        Some(before) => is_dead(node, before),
        None => false,
    }
}

/// The address of the last word of code among the first words of a node.
fn last_code(words: &[Item]) -> Option<usize>
    ensures { result ≡ spec.last_code None 0 (map item_view words.now) }
{
    let mut found = None;
    for (at, word) in words.iter().enumerate() {
        if matches!(word, Item::Code(_)) {
            found = Some(at);
        }
    }
    found
}

/// Whether an address has a label.
fn has_label(labels: &IndexMap<String, u8>, address: usize) -> bool
    ensures { result ≡ list_any (λ label. label.1 == address) (labels_of labels.now.entries) }
{
    for (_, at) in labels {
        if usize::from(*at) == address {
            return true;
        }
    }
    false
}
