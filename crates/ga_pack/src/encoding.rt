ghost use Rattle.std.specs.Prelude.{◌≡◌, ℕ, ◌+◌, ◌/◌, ◌<◌, ◌^◌, List, [], ◌∷◌, IfErr, IfOk, None, Ok, Some};
ghost use Rattle.ga_word.specs.Word.{bits};
ghost use Rattle.ga_pack.specs.Decoded.{reading_of};
ghost use Rattle.ga_pack.specs.Encoding.{pack_fault};
ghost use Rattle.ga_pack.specs.Reading.{Reads, stored, stored_upper};

use crate::keys::{SLOT0_KEY, SLOT1_KEY, SLOT2_KEY, SLOT3_KEY};
use crate::packed::Packed;
use crate::slots::{dest_bound, spare_bound};
use ga_word::{Op, Word18};
use thiserror::Error;

/// Why [`encode`] refuses a `Packed`: no word reads so.
#[derive(Clone, Copy, Debug, PartialEq, Eq, Error)]
pub enum PackError {
    /// The opcodes and the destination are not of the form of a word.
    #[error("Shape")]
    Shape,
    /// The opcode in slot 3 has a bit set among the lower two of its code.
    #[error("Slot3")]
    Slot3,
    /// The destination has more bits than there are behind the slot of its opcode.
    #[error("Dest")]
    Dest,
    /// The spare bits are more than three, or set in a word that has none.
    #[error("Spare")]
    Spare,
}

fn slot0_bits(op: Op) -> u32
    ensures bound { result < 2 ^ 5 }
    ensures bits { stored 0 op ≡ bits 5 result }
{
    u32::from(op.code()) ^ SLOT0_KEY
}

fn slot1_bits(op: Op) -> u32
    ensures bound { result < 2 ^ 5 }
    ensures bits { stored 1 op ≡ bits 5 result }
{
    u32::from(op.code()) ^ SLOT1_KEY
}

fn slot2_bits(op: Op) -> u32
    ensures bound { result < 2 ^ 5 }
    ensures bits { stored 2 op ≡ bits 5 result }
{
    u32::from(op.code()) ^ SLOT2_KEY
}

fn slot3_bits(op: Op) -> u32
    ensures bound { result < 2 ^ 3 }
    ensures bits { stored_upper op ≡ bits 3 result }
{
    u32::from(op.code() >> 2) ^ SLOT3_KEY
}

#[tactic(auto, unfolding(crate::specs::Encoding::pack_fault))]
fn with_dest_behind_slot0(op: Op, dest: Option<u16>, spare: u8) -> Result<Word18, PackError>
    ensures below { IfOk result (λ word. word < 2 ^ 18) }
    ensures reading { IfOk result (λ word. Reads (bits 18 word) (op ∷ []) dest spare) }
    ensures refused { IfErr result (λ error. pack_fault (op ∷ []) dest spare ≡ Some error) }
{
    let Some(dest) = dest else {
        return Err(PackError::Shape);
    };
    if !op.takes_dest() {
        return Err(PackError::Shape);
    }
    if dest >= dest_bound(0) {
        return Err(PackError::Dest);
    }
    if spare >= spare_bound(0) {
        return Err(PackError::Spare);
    }
    let front = slot0_bits(op) << 3 | u32::from(spare);
    Ok(Word18::new(front << 10 | u32::from(dest)).unwrap())
}

#[tactic(auto, unfolding(crate::specs::Encoding::pack_fault))]
fn with_dest_behind_slot1(a: Op, op: Op, dest: Option<u16>, spare: u8) -> Result<Word18, PackError>
    ensures below { IfOk result (λ word. word < 2 ^ 18) }
    ensures reading { IfOk result (λ word. Reads (bits 18 word) (a ∷ op ∷ []) dest spare) }
    ensures refused { IfErr result (λ error. pack_fault (a ∷ op ∷ []) dest spare ≡ Some error) }
{
    let Some(dest) = dest else {
        return Err(PackError::Shape);
    };
    if a.takes_dest() || !op.takes_dest() {
        return Err(PackError::Shape);
    }
    if dest >= dest_bound(1) {
        return Err(PackError::Dest);
    }
    if spare > 0 {
        return Err(PackError::Spare);
    }
    let front = slot0_bits(a) << 5 | slot1_bits(op);
    Ok(Word18::new(front << 8 | u32::from(dest)).unwrap())
}

#[tactic(auto, unfolding(crate::specs::Encoding::pack_fault))]
fn with_dest_behind_slot2(
    a: Op,
    b: Op,
    op: Op,
    dest: Option<u16>,
    spare: u8,
) -> Result<Word18, PackError>
    ensures below { IfOk result (λ word. word < 2 ^ 18) }
    ensures reading { IfOk result (λ word. Reads (bits 18 word) (a ∷ b ∷ op ∷ []) dest spare) }
    ensures refused { IfErr result (λ error. pack_fault (a ∷ b ∷ op ∷ []) dest spare ≡ Some error) }
{
    let Some(dest) = dest else {
        return Err(PackError::Shape);
    };
    if a.takes_dest() || b.takes_dest() || !op.takes_dest() {
        return Err(PackError::Shape);
    }
    if dest >= dest_bound(2) {
        return Err(PackError::Dest);
    }
    if spare > 0 {
        return Err(PackError::Spare);
    }
    let front = (slot0_bits(a) << 5 | slot1_bits(b)) << 5 | slot2_bits(op);
    Ok(Word18::new(front << 3 | u32::from(dest)).unwrap())
}

#[tactic(auto, unfolding(crate::specs::Encoding::pack_fault))]
fn without_dest(
    a: Op,
    b: Op,
    c: Op,
    d: Op,
    dest: Option<u16>,
    spare: u8,
) -> Result<Word18, PackError>
    ensures below { IfOk result (λ word. word < 2 ^ 18) }
    ensures reading { IfOk result (λ word. Reads (bits 18 word) (a ∷ b ∷ c ∷ d ∷ []) dest spare) }
    ensures refused { IfErr result (λ error. pack_fault (a ∷ b ∷ c ∷ d ∷ []) dest spare
        ≡ Some error) }
{
    if dest.is_some() || a.takes_dest() || b.takes_dest() || c.takes_dest() || d.takes_dest() {
        return Err(PackError::Shape);
    }
    if !d.fits_slot3() {
        return Err(PackError::Slot3);
    }
    if spare > 0 {
        return Err(PackError::Spare);
    }
    let front = (slot0_bits(a) << 5 | slot1_bits(b)) << 5 | slot2_bits(c);
    Ok(Word18::new(front << 3 | slot3_bits(d)).unwrap())
}

fn pack(ops: &[Op], dest: Option<u16>, spare: u8) -> Result<Word18, PackError>
    ensures below { IfOk result (λ word. word < 2 ^ 18) }
    ensures reading { IfOk result (λ word. Reads (bits 18 word) ops.now dest spare) }
    ensures refused { IfErr result (λ error. pack_fault ops.now dest spare ≡ Some error) }
{
    match *ops {
        [] => Err(PackError::Shape),
        [a] => with_dest_behind_slot0(a, dest, spare),
        [a, b] => with_dest_behind_slot1(a, b, dest, spare),
        [a, b, c] => with_dest_behind_slot2(a, b, c, dest, spare),
        [a, b, c, d] => without_dest(a, b, c, d, dest, spare),
        [_, _, _, _, _, ..] => Err(PackError::Shape),
    }
}

/// The word that packs these opcodes with this destination and these spare bits, as the F18A
/// reference, DB001, lays it out: `decode` gives the argument back for this word and for no other.
/// It allocates nothing.
///
/// A word has a destination and one to three opcodes, of which the last and no other takes it, or
/// it has no destination and four opcodes, none of which takes one. Anything else is refused as
/// [`PackError::Shape`], and then the first of these: an opcode in slot 3 whose lower two bits are
/// not 0 ([`PackError::Slot3`]); a destination over 3FF, FF or 7 (hexadecimal) behind slot 0, 1 or
/// 2 ([`PackError::Dest`]); spare bits over 7, or other than 0 if slot 0 takes no destination
/// ([`PackError::Spare`]).
pub fn encode(packed: &Packed) -> Result<Word18, PackError>
    // the word is spelled by these opcodes, this destination and these spare bits
    ensures reading { IfOk result (λ word. Reads (bits 18 word) packed.now.ops.items packed.now.dest
        packed.now.spare) }
    // they are what the word reads as
    ensures ops { IfOk result (λ word. (reading_of word).ops ≡ packed.now.ops.items) }
    ensures dest { IfOk result (λ word. (reading_of word).dest ≡ packed.now.dest) }
    ensures spare { IfOk result (λ word. (reading_of word).spare ≡ packed.now.spare) }
    // accepted without a fault, and refused for the first one
    ensures accepted { IfOk result (λ _. pack_fault packed.now.ops.items packed.now.dest
        packed.now.spare ≡ None) }
    ensures refused { IfErr result (λ error. pack_fault packed.now.ops.items packed.now.dest
        packed.now.spare ≡ Some error) }
    // the word of any number that reads so
    ensures all { (word : ℕ) → word < 2 ^ 18 → Reads (bits 18 word) packed.now.ops.items
        packed.now.dest packed.now.spare → result ≡ Ok word }
{
    pack(packed.ops.as_slice(), packed.dest, packed.spare)
}
