ghost use Rattle.std.specs.Prelude.{◌≡◌, ◌≤◌, length, map};
ghost use Rattle.ga_disasm.specs.Disassembling.{item_view};
ghost use Rattle.ga_lint.specs.LeavesExtended as spec;
ghost use Rattle.ga_lint.specs.inner.NodeText.{node_of};

use crate::extended_mode::{extended_words, is_known, slot0_dest};
use crate::node_text::NodeText;
use ga_disasm::Item;
use ga_word::Op;

/// Whether the word at an address goes back in a loop, and leaves extended mode.
pub(crate) fn leaves_extended(node: &NodeText<'_>, address: usize) -> bool
    ensures { result ≡ spec.leaves_extended (node_of node.now) address }
{
    match node.words.get(address) {
        Some(word) => match leaving_dest(word) {
            Some(dest) => {
                let back = usize::from(dest);
                back < address && run_extended(node.words, back, address)
            }
            None => false,
        },
        None => false,
    }
}

/// Whether the words at two addresses both run in extended mode.
fn run_extended(words: &[Item], back: usize, address: usize) -> bool
    requires { length words.now ≤ 64 }
    ensures { result ≡ spec.run_extended (map item_view words.now) back address }
{
    let known = extended_words(words);
    is_known(known.as_slice(), back) && is_known(known.as_slice(), address)
}

/// The destination of a word in slot 0, but not that of a `call`.
fn leaving_dest(word: &Item) -> Option<u16>
    ensures { result ≡ spec.leaving_dest (item_view word.now) }
{
    match word {
        Item::Code(packed) => match *packed.ops.as_slice() {
            [Op::Call] => None,
            _ => slot0_dest(word),
        },
        _ => None,
    }
}
