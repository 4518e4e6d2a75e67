//! Reads of io by a B that the node hasn't set.
ghost use Rattle.std.specs.Prelude.{◌≡◌, ◌<◌, false};
ghost use Rattle.ga_disasm.specs.Disassembling.{item_view};
ghost use Rattle.ga_lint.specs.ReadsIo as spec;
ghost use Rattle.ga_lint.specs.inner.NodeText.{node_of};

use crate::node_text::NodeText;
use crate::runs_off::is_last_code;
use crate::straight_run::is_first_wrong;
use crate::warning::WarningKind;
use ga_disasm::Item;
use ga_word::Op;

/// Whether the word at an address reads io before the node sets B, and has code behind that.
pub(crate) fn reads_io(node: &NodeText<'_>, address: usize) -> bool
    requires { address < 64 }
    ensures { result ≡ spec.reads_io (node_of node.now) address }
{
    is_first_wrong(WarningKind::ReadsIo, node, address)
        && (goes_on_at(node, address) || !is_last_code(node, address))
}

fn goes_on_at(node: &NodeText<'_>, address: usize) -> bool
    ensures { result ≡ spec.goes_on_at (node_of node.now) address }
{
    match node.words.get(address) {
        Some(word) => goes_on_in(word),
        None => false,
    }
}

fn goes_on_in(word: &Item) -> bool
    ensures { result ≡ spec.goes_on_in (item_view word.now) }
{
    match word {
        Item::Code(packed) => goes_on_behind(packed.ops.as_slice()),
        _ => false,
    }
}

/// Whether an opcode that is no filler stands behind an `@b`.
fn goes_on_behind(ops: &[Op]) -> bool
    ensures { result ≡ spec.goes_on_behind false ops.now }
{
    let mut read = false;
    for op in ops {
        if read && !matches!(op, Op::Nop) {
            return true;
        }
        read = read || matches!(op, Op::FetchB);
    }
    false
}
