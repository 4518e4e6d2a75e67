//! The addresses of labels, and which of them are in reach from a slot.
ghost use Rattle.std.specs.Prelude.{◌≡◌, ◌<◌, ◌≤◌, length, true};
ghost use Rattle.ga_pack.specs.Model.Layout as laid;
ghost use Rattle.ga_source.specs.Item.{item_of, value_of, word_of};
ghost use Rattle.ga_asm.specs.Image.{labels_of};

use ga_pack::{dest_bound, is_followed};
use ga_source::{Item, TransferWord, Value};
use ga_word::{Op, Word18};
use indexmap::IndexMap;

/// The address of a label, if it is among these.
pub(crate) fn address_of(labels: &IndexMap<String, u8>, name: &str) -> Option<u8>
    ensures { result ≡ laid.address_of (labels_of labels.now.entries) name.now }
{
    labels.get(name).copied()
}

// A number, or the address of a label, if it is among these.
pub(crate) fn value_among(labels: &IndexMap<String, u8>, value: &Value) -> Option<Word18>
    ensures { result ≡ laid.value_of (labels_of labels.now.entries) (value_of value.now) }
{
    match value {
        Value::Number(number) => Some(*number),
        Value::Label(name) => Word18::new(u32::from(address_of(labels, name.as_str())?)),
    }
}

// A name in brackets is in reach, if it is a label among these.
pub(crate) fn is_in_reach(labels: &IndexMap<String, u8>, address: u8, item: &Item) -> bool
    requires { address ≤ 64 }
    ensures { result ≡ laid.is_in_reach (labels_of labels.now.entries) address (item_of item.now) }
{
    match item {
        Item::WordTo(word) => word_reaches(labels, address, word),
        _ => true,
    }
}

pub(crate) fn word_reaches(labels: &IndexMap<String, u8>, address: u8, word: &TransferWord) -> bool
    requires { address ≤ 64 }
    ensures { result ≡ laid.is_in_reach (labels_of labels.now.entries) address (word_of word.now) }
{
    let Value::Label(name) = &word.dest else {
        return true;
    };
    match address_of(labels, name.as_str()) {
        Some(dest) => reaches(
            word.ops.len(),
            p_behind(address, word.ops.as_slice()),
            u32::from(dest),
        ),
        None => true,
    }
}

/// P in the slot behind these opcodes of the word at an address, of which a destination replaces
/// the low bits: the next address, and one more for each `@p` and `!p` among them. Those behind `;`
/// or `ex` count too, though no slot there is run. (The advance of P: the F18A reference, DB001.
/// That these count: profile.)
pub fn p_behind(address: u8, ops: &[Op]) -> u8
    // the address of a word, or the one behind the last; and a word has four slots
    requires near { address ≤ 64 }
    requires few { length ops.now ≤ 4 }
    ensures { result ≡ laid.p_behind address ops.now }
{
    let mut followed: u8 = 0;
    for op in ops {
        if is_followed(*op) {
            followed += 1;
        }
    }
    address + 1 + followed
}

// The destination is in reach from the slot.
fn reaches(slot: usize, p: u8, dest: u32) -> bool
    ensures test { result ≡ laid.reaches slot p dest }
    ensures room { result ≡ true → slot < 4 }
{
    slot == 0
        || slot == 1 && dest < u32::from(dest_bound(1))
        || slot == 2 && dest / 8 == u32::from(p) / 8
}

pub(crate) fn may_reach(slot: usize, p: u8, dest: Option<Word18>) -> bool
    ensures test { result ≡ laid.may_reach slot p dest }
    ensures room { result ≡ true → slot < 4 }
{
    match dest {
        Some(dest) => reaches(slot, p, dest.get()),
        None => slot < 2,
    }
}
