//! Which `;` surely goes back to the `call` of its routine.
ghost use Rattle.std.specs.Prelude.{◌≡◌, ◌≤◌, length, map};
ghost use Rattle.std.specs.List.{list_any};
ghost use Rattle.ga_disasm.specs.Disassembling.{item_view};
ghost use Rattle.ga_lint.specs.LeafReturns as spec;
ghost use Rattle.ga_lint.specs.inner.NodeText.{node_of};

use crate::node_text::NodeText;
use crate::reaching::{comes_on, goes_on, goes_to, is_start, sets_b};
use crate::unext_repeats::has_unext;
use ga_disasm::Item as Word;
use ga_word::Op;

/// Whether a `;` that runs may go elsewhere than behind the `call` of its routine.
pub(crate) fn strays(node: &NodeText<'_>) -> bool
    ensures { result ≡ spec.strays (node_of node.now) }
{
    let has_b = sets_b(node.words);
    let mut comes = false;
    let mut depth = None;
    for (at, word) in node.words.iter().enumerate() {
        match word {
            Word::Code(packed) => {
                let ops = packed.ops.as_slice();
                let runs = comes || is_start(node, at);
                let before = depth_at(node, at, depth, ops);
                if runs && strays_in(before, ops) {
                    return true;
                }
                comes = runs && goes_on(has_b, ops);
                depth = depth_after(before, ops);
            }
            Word::Follower(_) => {}
            Word::Data(_) => return false,
        }
    }
    false
}

/// How many words the routine has pushed as the word at an address begins, if that is known.
fn depth_at(node: &NodeText<'_>, address: usize, depth: Option<u8>, ops: &[Op]) -> Option<u8>
    ensures { result ≡ spec.depth_at (node_of node.now) address depth ops.now }
{
    if has_unext(ops) && moves_r(ops) {
        None
    } else if is_head(node, address) {
        Some(0)
    } else if is_start(node, address) {
        None
    } else {
        depth
    }
}

/// Whether execution comes to an address by a `call` alone.
fn is_head(node: &NodeText<'_>, address: usize) -> bool
    ensures { result ≡ spec.is_head (node_of node.now) address }
{
    is_led_to_by(true, node.words, address)
        && !is_led_to_by(false, node.words, address)
        && usize::from(node.image.entry()) != address
        && !comes_on(node, address)
}

/// Whether one of these words goes to an address by a `call`, or else by another opcode.
fn is_led_to_by(by_call: bool, words: &[Word], address: usize) -> bool
    requires { length words.now ≤ 64 }
    ensures { result ≡ spec.is_led_to_by by_call address 0 (map item_view words.now) }
{
    for (at, word) in words.iter().enumerate() {
        if goes_by(by_call, word) && goes_to(at, word, address) {
            return true;
        }
    }
    false
}

fn goes_by(by_call: bool, word: &Word) -> bool
    ensures { result ≡ spec.goes_by by_call (item_view word.now) }
{
    if by_call { calls(word) } else { !calls(word) }
}

fn calls(word: &Word) -> bool
    ensures { result ≡ spec.calls (item_view word.now) }
{
    match word {
        Word::Code(packed) => has_call(packed.ops.as_slice()),
        _ => false,
    }
}

fn has_call(ops: &[Op]) -> bool
    ensures { result ≡ list_any spec.is_call ops.now }
{
    for op in ops {
        if matches!(op, Op::Call) {
            return true;
        }
    }
    false
}

fn moves_r(ops: &[Op]) -> bool
    ensures { result ≡ list_any spec.moves_r ops.now }
{
    for op in ops {
        if matches!(op, Op::Push | Op::Pop) {
            return true;
        }
    }
    false
}

/// How many words are pushed behind a word with these opcodes, if that is known.
fn depth_after(before: Option<u8>, ops: &[Op]) -> Option<u8>
    ensures { result ≡ spec.depth_after before ops.now }
{
    let mut depth = before;
    for op in ops {
        if op.ends_word() {
            return None;
        }
        depth = depth_behind(depth, *op);
    }
    depth
}

/// Whether one of these opcodes is a `;` that may go elsewhere than behind the `call`.
fn strays_in(before: Option<u8>, ops: &[Op]) -> bool
    ensures { result ≡ spec.strays_in before ops.now }
{
    let mut depth = before;
    for op in ops {
        if matches!(op, Op::Return) && !is_none_left(depth) {
            return true;
        }
        if op.ends_word() {
            return false;
        }
        depth = depth_behind(depth, *op);
    }
    false
}

fn is_none_left(depth: Option<u8>) -> bool
    ensures { result ≡ spec.is_none_left depth }
{
    match depth {
        Some(known) => known == 0,
        None => false,
    }
}

/// How many words are pushed behind an opcode, if that is known.
fn depth_behind(depth: Option<u8>, op: Op) -> Option<u8>
    ensures { result ≡ spec.depth_behind depth op }
{
    match depth {
        Some(known) => depth_of(known, op),
        None => None,
    }
}

/// The same if it is known before. R has eight words below it.
fn depth_of(depth: u8, op: Op) -> Option<u8>
    ensures { result ≡ spec.depth_of depth op }
{
    match op {
        Op::Push => { if depth < 8 { Some(depth + 1) } else { None } }
        Op::Pop | Op::Micronext => { if depth == 0 { None } else { Some(depth - 1) } }
        _ => Some(depth),
    }
}
