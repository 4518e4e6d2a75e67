//! What a node runs from its entry on, up to the first opcode behind which it may go elsewhere.
ghost use Rattle.std.specs.Prelude.{◌≡◌, ◌+◌, ◌≤◌, Some, map, IfSome};
ghost use Rattle.ga_disasm.specs.Disassembling.{item_view};
ghost use Rattle.ga_lint.specs.StraightRun as spec;
ghost use Rattle.ga_lint.specs.inner.NodeText.{node_of};

use crate::node_text::NodeText;
use crate::port_writes::sets;
use crate::warning::WarningKind;
use ga_disasm::Item;
use ga_word::Op;

/// How many words a stack has room for, at most.
const MOST: u8 = 10;

/// Whether the word at an address is the first one of the straight run with a wrong opcode.
pub(crate) fn is_first_wrong(kind: WarningKind, node: &NodeText<'_>, address: usize) -> bool
    ensures { result ≡ spec.is_first_wrong kind (node_of node.now) address }
{
    let entry = usize::from(node.image.entry());
    match first_wrong(kind, entry, node.words_from(entry)) {
        Some(first) => first == address,
        None => false,
    }
}

/// The address of the first word with a wrong opcode, of these from an address on.
fn first_wrong(kind: WarningKind, start: usize, words: &[Item]) -> Option<usize>
    requires { start ≤ 64 }
    ensures { result ≡ spec.first_wrong kind start (Some 0) (map item_view words.now) }
{
    let mut count = 0;
    for (index, word) in words.iter().enumerate() {
        match word {
            Item::Code(packed) => {
                let ops = packed.ops.as_slice();
                if has_wrong(kind, count, ops) {
                    return Some(start + index);
                }
                count = count_after(kind, count, ops)?;
            }
            Item::Follower(_) => {}
            Item::Data(_) => return None,
        }
    }
    None
}

/// Whether one of these opcodes is wrong, with this number of words pushed.
fn has_wrong(kind: WarningKind, pushed: u8, ops: &[Op]) -> bool
    requires { pushed ≤ 10 }
    ensures { result ≡ spec.has_wrong kind pushed ops.now }
{
    let mut count = pushed;
    for op in ops {
        if is_wrong(kind, count, *op) {
            return true;
        }
        if ends_run(*op) {
            return false;
        }
        count = count_behind(kind, count, *op);
    }
    false
}

/// What the rule counts behind these opcodes, if the run goes on.
fn count_after(kind: WarningKind, pushed: u8, ops: &[Op]) -> Option<u8>
    requires { pushed ≤ 10 }
    ensures count { result ≡ spec.count_after kind pushed ops.now }
    ensures most { IfSome result (λ count. count ≤ 10) }
{
    let mut count = pushed;
    for op in ops {
        if ends_run(*op) {
            return None;
        }
        count = count_behind(kind, count, *op);
    }
    Some(count)
}

/// Whether the run may go elsewhere behind an opcode.
fn ends_run(op: Op) -> bool
    ensures { result ≡ spec.ends_run op }
{
    matches!(op, Op::Micronext) || op.ends_word()
}

/// Whether an opcode is wrong, with this number of words pushed.
fn is_wrong(kind: WarningKind, count: u8, op: Op) -> bool
    ensures { result ≡ spec.is_wrong kind count op }
{
    match kind {
        WarningKind::PushesTooMany => count == MOST && brings(op),
        WarningKind::PopsTooMany => count == 0 && needs(op),
        WarningKind::ReturnsNowhere => count == 0 && matches!(op, Op::Return),
        WarningKind::ReadsIo => count == 0 && matches!(op, Op::FetchB),
        _ => false,
    }
}

/// What the rule counts behind an opcode.
fn count_behind(kind: WarningKind, count: u8, op: Op) -> u8
    requires { count ≤ 10 }
    ensures count { result ≡ spec.count_behind kind count op }
    ensures most { result ≤ 10 }
{
    match kind {
        WarningKind::ReturnsNowhere => {
            changed(count, matches!(op, Op::Push), matches!(op, Op::Pop))
        }
        WarningKind::ReadsIo => changed(count, sets(true, op), false),
        _ => words_behind(count, op),
    }
}

/// How many words are pushed on the data stack behind an opcode.
fn words_behind(count: u8, op: Op) -> u8
    requires { count ≤ 10 }
    ensures count { result ≡ spec.words_behind count op }
    ensures most { result ≤ 10 }
{
    match op {
        Op::Or => count.saturating_sub(1).max(1),
        _ => changed(count, pushes(op), takes(op)),
    }
}

fn changed(count: u8, more: bool, fewer: bool) -> u8
    requires { count ≤ 10 }
    ensures count { result ≡ spec.changed count more fewer }
    ensures most { result ≤ 10 }
{
    if more {
        MOST.min(count + 1)
    } else if fewer {
        count.saturating_sub(1)
    } else {
        count
    }
}

/// Whether an opcode pushes a word on the data stack that isn't there yet.
fn brings(op: Op) -> bool
    ensures { result ≡ spec.brings op }
{
    matches!(
        op,
        Op::FetchP | Op::FetchPlus | Op::FetchB | Op::Fetch | Op::Pop | Op::A
    )
}

fn pushes(op: Op) -> bool
    ensures { result ≡ spec.pushes op }
{
    matches!(op, Op::Dup | Op::Over) || brings(op)
}

/// Whether an opcode takes a word from the data stack, and needs it.
fn needs(op: Op) -> bool
    ensures { result ≡ spec.needs op }
{
    matches!(
        op,
        Op::StoreP
            | Op::StorePlus
            | Op::StoreB
            | Op::Store
            | Op::Plus
            | Op::And
            | Op::Or
            | Op::Push
            | Op::BStore
            | Op::AStore
    )
}

fn takes(op: Op) -> bool
    ensures { result ≡ spec.takes op }
{
    matches!(op, Op::Drop) || needs(op)
}
