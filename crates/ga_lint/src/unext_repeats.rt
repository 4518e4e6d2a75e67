ghost use Rattle.std.specs.Prelude.{◌≡◌};
ghost use Rattle.ga_disasm.specs.Disassembling.{item_view};
ghost use Rattle.ga_lint.specs.UnextRepeats as spec;
ghost use Rattle.ga_lint.specs.inner.NodeText.{node_of};

use crate::node_text::NodeText;
use ga_disasm::Item;
use ga_pack::is_followed;
use ga_word::Op;

/// Whether the rounds of an `unext` run an opcode again that is meant to run once.
pub(crate) fn unext_repeats(node: &NodeText<'_>, address: usize) -> bool
    ensures { result ≡ spec.unext_repeats (node_of node.now) address }
{
    match node.words.get(address) {
        Some(word) => repeats_in(node.is_packed(address), word),
        None => false,
    }
}

fn repeats_in(packed: bool, word: &Item) -> bool
    ensures { result ≡ spec.repeats_in packed (item_view word.now) }
{
    match word {
        Item::Code(code) => repeats(packed, code.ops.as_slice()),
        _ => false,
    }
}

/// Whether such an opcode runs before an `unext`.
pub(crate) fn repeats(packed: bool, ops: &[Op]) -> bool
    ensures { result ≡ spec.repeats packed ops.now }
{
    for (index, op) in ops.iter().enumerate() {
        if op.ends_word() || matches!(op, Op::Micronext) {
            return false;
        }
        if changes_rounds(packed, *op) {
            return has_unext(&ops[index + 1..]);
        }
    }
    false
}

/// Whether an opcode does something else in each round.
fn changes_rounds(packed: bool, op: Op) -> bool
    ensures { result ≡ spec.changes_rounds packed op }
{
    matches!(op, Op::Push) || packed && is_followed(op)
}

/// Whether one of the opcodes is an `unext`, and none before it ends the word.
pub(crate) fn has_unext(ops: &[Op]) -> bool
    ensures { result ≡ spec.has_unext ops.now }
{
    for op in ops {
        if matches!(op, Op::Micronext) {
            return true;
        }
        if op.ends_word() {
            return false;
        }
    }
    false
}
