//! Whether a node may write over its own code, by A or by B.
ghost use Rattle.std.specs.Prelude.{◌≡◌, ◌+◌, ◌<◌, ◌≤◌, None, length, map, slice_get};
ghost use Rattle.ga_disasm.specs.Disassembling.{item_view};
ghost use Rattle.ga_lint.specs.CodeWrites as spec;
ghost use Rattle.ga_lint.specs.inner.NodeText.{node_of};

use crate::acting::{Act, does};
use crate::lookups::land;
use crate::node_text::NodeText;
use crate::port_writes::{sets, writes};
use crate::reaching::is_start;
use crate::unext_repeats::has_unext;
use ga_disasm::Item;
use ga_pack::is_followed;
use ga_place::Where;
use ga_word::{Op, Word18};

/// Whether the node may write over its code.
pub(crate) fn writes_code(node: &NodeText<'_>) -> bool
    ensures { result ≡ spec.writes_code (node_of node.now) }
{
    let entry = usize::from(node.image.entry());
    does(node, Act::WritesByA)
        && (!is_set_first(node.words_from(entry)) || sets_ram_from(node, false))
        || does(node, Act::WritesByB) && sets_ram_from(node, true)
}

/// Whether a word of the node may set B, or else A, to an address in RAM.
fn sets_ram_from(node: &NodeText<'_>, is_b: bool) -> bool
    ensures { result ≡ spec.sets_ram_from (node_of node.now) is_b 0 None (node_of node.now).words }
{
    let numbers = node.image.words();
    let mut top = None;
    for (at, word) in node.words.iter().enumerate() {
        match word {
            Item::Code(packed) => {
                let ops = packed.ops.as_slice();
                let before = top_at(node, at, top, ops);
                if sets_ram_in(is_b, numbers, at + 1, before, ops) {
                    return true;
                }
                top = top_after(numbers, at + 1, before, ops);
            }
            Item::Follower(_) => {}
            Item::Data(_) => return false,
        }
    }
    false
}

/// T as the word at an address begins, if it is a number that is known.
fn top_at(node: &NodeText<'_>, address: usize, top: Option<u32>, ops: &[Op]) -> Option<u32>
    ensures { result ≡ spec.top_at (node_of node.now) address top ops.now }
{
    if is_start(node, address) || has_unext(ops) {
        None
    } else {
        top
    }
}

/// Whether one of a word's opcodes may set B, or else A, to an address in RAM. The word's first
/// follower has this address.
fn sets_ram_in(
    is_b: bool,
    numbers: &[Word18],
    first: usize,
    before: Option<u32>,
    ops: &[Op],
) -> bool
    requires near { first ≤ 64 }
    requires few { length ops.now ≤ 4 }
    ensures { result ≡ spec.sets_ram_in is_b numbers.now first before ops.now }
{
    let mut p = first;
    let mut top = before;
    for op in ops {
        if sets_ram(is_b, top, *op) {
            return true;
        }
        if op.ends_word() {
            return false;
        }
        top = top_behind(numbers, p, top, *op);
        if is_followed(*op) {
            p += 1;
        }
    }
    false
}

/// T behind a word, if it is a number that is known.
fn top_after(numbers: &[Word18], first: usize, before: Option<u32>, ops: &[Op]) -> Option<u32>
    requires near { first ≤ 64 }
    requires few { length ops.now ≤ 4 }
    ensures { result ≡ spec.top_after numbers.now first before ops.now }
{
    let mut p = first;
    let mut top = before;
    for op in ops {
        if op.ends_word() {
            return None;
        }
        top = top_behind(numbers, p, top, *op);
        if is_followed(*op) {
            p += 1;
        }
    }
    top
}

/// T behind an opcode, if it is a number that is known. The next follower has this address.
fn top_behind(numbers: &[Word18], p: usize, top: Option<u32>, op: Op) -> Option<u32>
    ensures { result ≡ spec.top_behind numbers.now p top op }
{
    match op {
        Op::FetchP => number_at(numbers, p),
        Op::Nop => top,
        _ => None,
    }
}

fn number_at(numbers: &[Word18], at: usize) -> Option<u32>
    ensures { result ≡ slice_get numbers.now at }
{
    match numbers.get(at) {
        Some(number) => Some(number.get()),
        None => None,
    }
}

/// Whether an opcode may set B, or else A, to an address in RAM.
fn sets_ram(is_b: bool, top: Option<u32>, op: Op) -> bool
    ensures { result ≡ spec.sets_ram is_b top op }
{
    sets(is_b, op) && may_be_ram(top) || !is_b && matches!(op, Op::MultiplyStep)
}

fn may_be_ram(top: Option<u32>) -> bool
    ensures { result ≡ spec.may_be_ram top }
{
    match top {
        Some(number) => matches!(land(number), Where::Ram(_)),
        None => true,
    }
}

/// Whether these words set A before they write by it or go elsewhere.
fn is_set_first(words: &[Item]) -> bool
    ensures { result ≡ spec.is_set_first None (map item_view words.now) }
{
    for word in words {
        match word {
            Item::Code(packed) => {
                if let Some(set) = set_in(packed.ops.as_slice()) {
                    return set;
                }
            }
            Item::Follower(_) => {}
            Item::Data(_) => return false,
        }
    }
    false
}

/// Whether these opcodes set A before they write by it or go elsewhere, if they do any of these.
fn set_in(ops: &[Op]) -> Option<bool>
    ensures { result ≡ spec.set_in ops.now }
{
    for op in ops {
        if sets(false, *op) {
            return Some(true);
        }
        if writes(false, *op) || op.ends_word() {
            return Some(false);
        }
    }
    None
}
