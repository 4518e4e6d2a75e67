//! The hottest lines of a node.
ghost use Rattle.std.specs.Prelude.{◌≡◌, map};
ghost use Rattle.ga_place.specs.Address.{advance_of};
ghost use Rattle.ga_disasm.specs.Disassembling.{item_view};
ghost use Rattle.ga_counts.specs.Counts.{word_counts};
ghost use Rattle.ga_counts.specs.Heat as spec;
ghost use Rattle.ga_counts.specs.Heat.{highest_count, jump_target, most_heat};

use crate::counts::Counts;
use crate::word_counts::WordCounts;
use ga_disasm::Item;
use ga_pack::Packed;
use ga_place::Node;
use ga_word::Op;

/// The highest count of a word.
fn highest_count(counts: &WordCounts) -> u64
    ensures { result ≡ highest_count counts.now }
{
    let first = counts.slot0.max(counts.slot1);
    let last = counts.slot2.max(counts.slot3);
    counts.fetches.max(first.max(last))
}

/// P behind the fetch of the word at an address, as `ga_place::advance` has it.
fn behind_fetch(address: usize) -> usize
    ensures { result ≡ advance_of address }
{
    if address / 0x100 % 2 == 1 {
        return address;
    }
    address / 0x80 * 0x80 + (address + 1) % 0x80
}

/// Where a word at an address goes that has nothing but a jump, and `.` before it. The destination
/// replaces all of P in slot 0, its low eight bits in slot 1, and its low three in slot 2.
fn jump_target(address: usize, packed: &Packed) -> Option<usize>
    ensures { result ≡ jump_target address packed.now.ops.items packed.now.dest }
{
    let dest = usize::from(packed.dest?);
    let p = behind_fetch(address);
    match packed.ops.as_slice() {
        [Op::Jump] => Some(dest),
        [Op::Nop, Op::Jump] => Some(p / 0x100 * 0x100 + dest % 0x100),
        [Op::Nop, Op::Nop, Op::Jump] => Some(p / 8 * 8 + dest % 8),
        _ => None,
    }
}

/// Whether a word at an address does nothing but jump there.
fn spins(address: usize, item: &Item) -> bool
    ensures { result ≡ spec.spins address (item_view item.now) }
{
    match item {
        Item::Code(packed) => jump_target(address, packed) == Some(address),
        Item::Follower(_) | Item::Data(_) => false,
    }
}

/// The heat of the line of a word.
pub(crate) fn heat(address: usize, item: &Item, counts: &WordCounts) -> u64
    ensures { result ≡ spec.heat address (item_view item.now) counts.now }
{
    if spins(address, item) {
        0
    } else {
        highest_count(counts)
    }
}

/// The most heat of the words of a node.
pub(crate) fn most_heat(counts: &Counts, node: Node, items: &[Item]) -> u64
    ensures { result
        ≡ most_heat (word_counts counts.now.words.items node) (map item_view items.now) }
{
    let mut most = 0;
    for (address, item) in items.iter().enumerate() {
        most = heat(address, item, &counts.word(node, address)).max(most);
    }
    most
}

/// Whether a line with this heat is hot in a node with that most heat.
pub(crate) fn is_hot(heat: u64, most: u64) -> bool
    ensures { result ≡ spec.is_hot heat most }
{
    heat > 0 && u128::from(heat) * 2 >= u128::from(most)
}
