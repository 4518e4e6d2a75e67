//! The second pass: the words of the groups of a node, with the labels of the whole node.
ghost use Rattle.std.specs.Prelude.{◌≡◌, ◌≢◌, ◌+◌, ◌<◌, ◌^◌, ◌≤◌, ◌++◌, ◌∷◌, [], IfErr, IfOk, List, None, OnOk, Some, false, length, map, true, ℕ};
ghost use Rattle.std.specs.List.{list_all, slice_get};
ghost use Rattle.ga_word.specs.declared.op.Op.TheVariants.{Nop};
ghost use Rattle.std.specs.Option.{unwrap_or};
ghost use Rattle.ga_word.specs.Word.{bits};
ghost use Rattle.ga_pack.specs.Encoding.{pack_fault};
ghost use Rattle.ga_pack.specs.Reading.{Reads};
ghost use Rattle.ga_pack.specs.Model.Layout as laid;
ghost use Rattle.ga_pack.specs.Model.Layout.{Alone, GroupWords, IsWord, Laid, last_dest, ops_of};
ghost use Rattle.ga_pack.specs.Model.Source as source;
ghost use Rattle.ga_source.specs.Item.{item_of, value_of, word_of};
ghost use Rattle.ga_asm.specs.Image.{labels_of};
ghost use Rattle.ga_asm.specs.inner.Layout.{Placing, plain};
ghost use Rattle.ga_asm.specs.inner.Making as made;
ghost use Rattle.ga_asm.specs.inner.Making.{IsGroup, IsMade, IsPackable, MoreWords, follower_list};
ghost use Rattle.ga_pack.specs.Model.LayoutFault.{SecondPassFault};
ghost use Rattle.ga_pack.specs.declared.error_kind.AsmErrorKind.TheVariants.{Memory};

use crate::items::{is_loose, op_of};
use crate::layout::{Layout, Refusal};
use crate::reach::{is_in_reach, value_among};
use arrayvec::ArrayVec;
use ga_pack::{AsmErrorKind, Packed, dest_bound, encode};
use ga_source::{Item, TransferWord, Value};
use ga_word::{Op, Word18};
use indexmap::IndexMap;
use std::alloc::Global;

fn value_number(labels: &IndexMap<String, u8>, value: &Value) -> Word18
    ensures { result ≡ laid.value_number (labels_of labels.now.entries) (value_of value.now) }
{
    value_among(labels, value).unwrap_or_default()
}

// The low bits of the value, as many as a destination has behind the slot.
fn dest_in(labels: &IndexMap<String, u8>, slot: usize, value: &Value) -> u16
    ensures { result ≡ laid.dest_in (labels_of labels.now.entries) slot (value_of value.now) }
{
    (value_number(labels, value).get() % u32::from(dest_bound(slot))) as u16
}

fn item_dest(labels: &IndexMap<String, u8>, slot: usize, item: &Item) -> Option<u16>
    ensures { result ≡ made.item_dest (labels_of labels.now.entries) slot (item_of item.now) }
{
    match item {
        Item::Transfer { dest, .. } => Some(dest_in(labels, slot, dest)),
        _ => None,
    }
}

fn slots_of(ops: &[Op]) -> ArrayVec<Op, 4>
    requires { length ops.now ≤ 4 }
    ensures { result.items ≡ ops.now }
{
    let mut slots = ArrayVec::new();
    for op in ops {
        slots.push(*op);
    }
    slots
}

// The opcode in a slot, or a filler behind these opcodes.
fn op_or_filler(ops: &[Op], slot: usize) -> Op
    ensures { result ≡ unwrap_or (slice_get ops.now slot) Nop }
{
    ops.get(slot).copied().unwrap_or(Op::Nop)
}

// The slots that are left have fillers.
#[tactic(auto, using(crate::proofs::MakingSteps::filled_four))]
fn with_fillers(ops: &[Op]) -> ArrayVec<Op, 4>
    requires { length ops.now ≤ 4 }
    ensures { result.items ≡ laid.filled 4 ops.now }
{
    ArrayVec::from([
        op_or_filler(ops, 0),
        op_or_filler(ops, 1),
        op_or_filler(ops, 2),
        op_or_filler(ops, 3),
    ])
}

fn encoded(packed: &Packed) -> Word18
    requires { pack_fault packed.now.ops.items packed.now.dest packed.now.spare ≡ None }
    ensures below { result < 2 ^ 18 }
    ensures reads { Reads (bits 18 result) packed.now.ops.items packed.now.dest packed.now.spare }
{
    match encode(packed) {
        Ok(word) => word,
        Err(_) => unreachable!(),
    }
}

// The word of these opcodes, this destination and these spare bits.
fn word(ops: ArrayVec<Op, 4>, dest: Option<u16>, spare: u8) -> Word18
    requires { IsPackable ops.items dest spare }
    ensures { IsWord result ops.items dest spare }
{
    let ops = match dest {
        Some(_) => ops,
        None => with_fillers(ops.as_slice()),
    };
    encoded(&Packed { ops, dest, spare })
}

// The word that items outside brackets share.
fn shared_word(labels: &IndexMap<String, u8>, items: &[Item]) -> Word18
    requires few { length items.now ≤ 4 }
    requires packable { IsPackable (ops_of (plain items.now))
        (last_dest (labels_of labels.now.entries) 0 (plain items.now)) 0 }
    ensures { IsWord result (ops_of (plain items.now)) (last_dest (labels_of labels.now.entries) 0
        (plain items.now)) 0 }
{
    let mut ops = ArrayVec::new();
    let mut dest = None;
    for item in items {
        dest = item_dest(labels, ops.len(), item);
        ops.push(op_of(item));
    }
    word(ops, dest, 0)
}

// The number that a word is followed by for the item.
fn follower_of(item: &Item) -> Option<Word18>
    ensures { laid.literals (item_of item.now ∷ []) ≡ follower_list result }
{
    match item {
        Item::Literal(number) => Some(*number),
        _ => None,
    }
}

// The followers of a word that items outside brackets share.
fn push_followers(items: &[Item], words: &mut Vec<Word18>) -> Result<(), AsmErrorKind>
    ensures ok { OnOk result (words.new.items ≡ words.old.items
        ++ laid.literals (plain items.now)) }
    ensures err { IfErr result (λ kind. kind ≡ Memory) }
{
    for item in items {
        if let Some(number) = follower_of(item) {
            words.push(number)?;
        }
    }
    Ok(())
}

// A bracketed word with a destination.
fn word_to(labels: &IndexMap<String, u8>, bracketed: &TransferWord) -> Word18
    requires { source.is_item (word_of bracketed.now) ≡ true }
    ensures { IsWord result (bracketed.now.ops.items ++ bracketed.now.op ∷ [])
        (Some (laid.dest_in (labels_of labels.now.entries) (length bracketed.now.ops.items)
        (value_of bracketed.now.dest))) (unwrap_or bracketed.now.spare 0) }
{
    let mut slots = slots_of(bracketed.ops.as_slice());
    slots.push(bracketed.op);
    let dest = dest_in(labels, bracketed.ops.len(), &bracketed.dest);
    word(slots, Some(dest), bracketed.spare.unwrap_or(0))
}

// The words of an item that shares no word.
#[tactic(auto, unfolding(ga_pack::specs::Model::Layout::GroupWords))]
fn push_alone(
    labels: &IndexMap<String, u8>,
    item: &Item,
    words: &mut Vec<Word18>,
) -> Result<(), AsmErrorKind>
    requires right { source.is_item (item_of item.now) ≡ true }
    requires alone { laid.is_loose (item_of item.now) ≡ false }
    ensures ok { OnOk result ((new : List ℕ) × GroupWords (labels_of labels.now.entries)
        (Alone (item_of item.now)) new × (words.new.items ≡ words.old.items ++ new)) }
    ensures err { IfErr result (λ kind. kind ≡ Memory) }
{
    match item {
        Item::Word(ops) => {
            words.push(word(slots_of(ops.as_slice()), None, 0))?;
        }
        Item::WordTo(bracketed) => {
            words.push(word_to(labels, bracketed))?;
        }
        Item::Plain(value) => {
            words.push(value_number(labels, value))?;
        }
        _ => {}
    }
    Ok(())
}

fn push_group(
    labels: &IndexMap<String, u8>,
    items: &[Item],
    words: &mut Vec<Word18>,
) -> Result<(), AsmErrorKind>
    requires { IsGroup (labels_of labels.now.entries) (plain items.now) }
    ensures ok { OnOk result (MoreWords (labels_of labels.now.entries) (plain items.now)
        words.old.items words.new.items) }
    ensures err { IfErr result (λ kind. kind ≡ Memory) }
{
    let first = &items[0];
    if is_loose(first) {
        words.push(shared_word(labels, items))?;
        push_followers(items, words)
    } else {
        push_alone(labels, first, words)
    }
}

/// The words of items that are placed, or the first fault of the second pass: a name in brackets
/// out of reach.
pub(crate) fn second_pass(
    alloc: Global,
    items: &[Item],
    layout: &Layout,
) -> Result<Vec<Word18>, Refusal>
    requires placed { Placing (plain items.now) layout.now }
    requires right { list_all source.is_item (plain items.now) ≡ true }
    requires some { 0 < length items.now }
    ensures ok { IfOk result (λ made. IsMade (plain items.now) layout.now made.items) }
    ensures err { IfErr result (λ refusal. refusal.kind ≢ Memory
        → SecondPassFault (plain items.now) refusal.at refusal.kind) }
    ensures at { IfErr result (λ refusal. refusal.at < length items.now) }
{
    let Ok(mut words) = Vec::with_capacity(alloc, usize::from(layout.address)) else {
        let kind = AsmErrorKind::Memory;
        return Err(Refusal { at: 0, kind });
    };
    let mut rest = items;
    for count in &layout.counts {
        let (group, behind) = rest.split_at(*count);
        let at = items.len() - rest.len();
        let address = words.len() as u8;
        if !is_in_reach(&layout.labels, address, &group[0]) {
            let kind = AsmErrorKind::OutOfReach;
            return Err(Refusal { at, kind });
        }
        if let Err(kind) = push_group(&layout.labels, group, &mut words) {
            return Err(Refusal { at, kind });
        }
        rest = behind;
    }
    Ok(words)
}
