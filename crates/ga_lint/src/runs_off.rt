ghost use Rattle.std.specs.Prelude.{◌≡◌, ◌<◌, map};
ghost use Rattle.std.specs.List.{list_any};
ghost use Rattle.ga_disasm.specs.Disassembling.{item_view};
ghost use Rattle.ga_lint.specs.Reaching as reaching;
ghost use Rattle.ga_lint.specs.RunsOff as spec;
ghost use Rattle.ga_lint.specs.inner.NodeText.{node_of};

use crate::node_text::NodeText;
use crate::reaching::{comes_on, is_code_at};
use ga_disasm::Item;

/// Whether the word at an address is the last one of the code, and execution goes on behind it.
pub(crate) fn runs_off(node: &NodeText<'_>, address: usize) -> bool
    requires { address < 64 }
    ensures { result ≡ spec.runs_off (node_of node.now) address }
{
    let code_len = node.image.code_len();
    code_len < 64 && is_last_code(node, address) && comes_on(node, code_len)
}

/// Whether the word at an address is code, and none behind it is.
pub(crate) fn is_last_code(node: &NodeText<'_>, address: usize) -> bool
    requires { address < 64 }
    ensures { result ≡ spec.is_last_code (node_of node.now) address }
{
    is_code_at(node, address) && !has_code(node.words_from(address + 1))
}

/// Whether one of these words is code.
fn has_code(words: &[Item]) -> bool
    ensures { result ≡ list_any reaching.is_code (map item_view words.now) }
{
    for word in words {
        if matches!(word, Item::Code(_)) {
            return true;
        }
    }
    false
}
