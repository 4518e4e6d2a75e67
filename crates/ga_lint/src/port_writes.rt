//! Writes to ports at which no node can take the word.
ghost use Rattle.std.specs.Prelude.{◌≡◌, ◌+◌, ◌<◌, ◌≤◌, None, false, length, map, slice_get};
ghost use Rattle.std.specs.Option.{option_map_or};
ghost use Rattle.ga_disasm.specs.Disassembling.{item_view};
ghost use Rattle.ga_lint.specs.NodeView.{lands};
ghost use Rattle.ga_lint.specs.PortWrites as spec;
ghost use Rattle.ga_lint.specs.inner.NodeText.{node_of};

use crate::lookups::land;
use crate::node_text::NodeText;
use ga_disasm::Item;
use ga_pack::is_followed;
use ga_place::{Node, Where, neighbour};
use ga_word::{Op, Word18};

/// To which ports a word can't be written.
#[derive(Drop)]
pub(crate) enum Refused {
    /// Those of several sides: the node stops.
    Several,
    /// That of a side at which this node has no neighbour: it waits for ever.
    Edge(Node),
}

/// Whether the word at an address sets A or B to such ports, and the node writes there.
pub(crate) fn writes_refused_at(refused: &Refused, node: &NodeText<'_>, address: usize) -> bool
    ensures { result ≡ spec.writes_refused_at refused.now (node_of node.now) address }
{
    match node.words.get(address) {
        Some(word) => writes_refused_in(refused, node, address, word),
        None => false,
    }
}

/// The same of the word there.
fn writes_refused_in(refused: &Refused, node: &NodeText<'_>, address: usize, word: &Item) -> bool
    requires { address < 64 }
    ensures { result
        ≡ spec.writes_refused_in refused.now (node_of node.now) address (item_view word.now) }
{
    match word {
        Item::Code(packed) => {
            let behind = node.words_from(address + 1);
            writes_refused(refused, node, address + 1, packed.ops.as_slice(), behind)
        }
        _ => false,
    }
}

/// Whether one of a word's opcodes sets A or B so. The word's first follower has this address, and
/// these words are behind it.
fn writes_refused(
    refused: &Refused,
    node: &NodeText<'_>,
    first: usize,
    ops: &[Op],
    behind: &[Item],
) -> bool
    requires near { first ≤ 64 }
    requires few { length ops.now ≤ 4 }
    ensures { result ≡ spec.writes_refused refused.now (node_of node.now) first false ops.now
        (map item_view behind.now) }
{
    let mut p = first;
    let mut held = false;
    for (slot, op) in ops.iter().enumerate() {
        if held && is_written(*op, &ops[slot + 1..], behind) {
            return true;
        }
        if op.ends_word() {
            return false;
        }
        held = holds_refused(refused, node, p, held, *op);
        if is_followed(*op) {
            p += 1;
        }
    }
    held && is_written_next(behind)
}

/// Whether T is the address of such ports behind an opcode, if it was that before or not. The
/// word's next follower has this address.
fn holds_refused(refused: &Refused, node: &NodeText<'_>, p: usize, held: bool, op: Op) -> bool
    ensures { result ≡ spec.holds_refused refused.now (node_of node.now) p held op }
{
    match op {
        Op::FetchP => is_refused_at(refused, node.image.words(), p),
        Op::Nop => held,
        _ => false,
    }
}

/// Whether the word at an address is the address of such ports.
fn is_refused_at(refused: &Refused, words: &[Word18], address: usize) -> bool
    ensures { result ≡ option_map_or (λ word. spec.is_refused refused.now (lands word))
        (slice_get words.now address) false }
{
    match words.get(address) {
        Some(word) => is_refused(refused, land(word.get())),
        None => false,
    }
}

fn is_refused(refused: &Refused, reached: Where) -> bool
    ensures { result ≡ spec.is_refused refused.now reached }
{
    let Where::Ports(sides) = reached else {
        return false;
    };
    match refused {
        Refused::Several => sides.only().is_none(),
        Refused::Edge(node) => match sides.only() {
            Some(side) => neighbour(*node, side).is_none(),
            None => false,
        },
    }
}

/// Whether the next opcode in these words that is no filler sets a register by which the node
/// writes.
fn is_written_next(words: &[Item]) -> bool
    ensures { result ≡ spec.is_written_next None (map item_view words.now) }
{
    for (index, word) in words.iter().enumerate() {
        match word {
            Item::Code(packed) => {
                if let Some(written) = first_in(packed.ops.as_slice(), &words[index + 1..]) {
                    return written;
                }
            }
            Item::Follower(_) => {}
            Item::Data(_) => return false,
        }
    }
    false
}

/// Whether the first one of these opcodes that is no filler sets a register by which the node
/// writes, if there is one.
fn first_in(ops: &[Op], behind: &[Item]) -> Option<bool>
    ensures { result ≡ spec.first_in ops.now (map item_view behind.now) }
{
    for (slot, op) in ops.iter().enumerate() {
        if !matches!(op, Op::Nop) {
            return Some(is_written(*op, &ops[slot + 1..], behind));
        }
    }
    None
}

/// Whether an opcode sets a register by which these opcodes, and then these words, write.
fn is_written(op: Op, ops: &[Op], behind: &[Item]) -> bool
    ensures { result ≡ spec.is_written op ops.now (map item_view behind.now) }
{
    match op {
        Op::BStore => is_written_in(true, use_in(true, ops), behind),
        Op::AStore => is_written_in(false, use_in(false, ops), behind),
        _ => false,
    }
}

/// Whether a register is written by, if it is known or else in these words.
fn is_written_in(is_b: bool, known: Option<bool>, words: &[Item]) -> bool
    ensures { result ≡ spec.is_written_in is_b known (map item_view words.now) }
{
    if let Some(written) = known {
        return written;
    }
    for word in words {
        match word {
            Item::Code(packed) => {
                if let Some(written) = use_in(is_b, packed.ops.as_slice()) {
                    return written;
                }
            }
            Item::Follower(_) => {}
            Item::Data(_) => return false,
        }
    }
    false
}

/// Whether these opcodes write by a register before they set it anew or go elsewhere, if they do
/// any of these.
fn use_in(is_b: bool, ops: &[Op]) -> Option<bool>
    ensures { result ≡ spec.use_in is_b ops.now }
{
    for op in ops {
        if writes(is_b, *op) {
            return Some(true);
        }
        if sets(is_b, *op) || op.ends_word() {
            return Some(false);
        }
    }
    None
}

/// Whether an opcode sets B, or else A.
pub(crate) fn sets(is_b: bool, op: Op) -> bool
    ensures { result ≡ spec.sets is_b op }
{
    match op {
        Op::BStore => is_b,
        Op::AStore => !is_b,
        _ => false,
    }
}

/// Whether an opcode writes by B, or else by A.
pub(crate) fn writes(is_b: bool, op: Op) -> bool
    ensures { result ≡ spec.writes is_b op }
{
    match op {
        Op::StoreB => is_b,
        Op::Store | Op::StorePlus => !is_b,
        _ => false,
    }
}
