ghost use Rattle.std.specs.Prelude.{◌≡◌, ℕ, ◌<◌, ◌*◌, ◌^◌, ◌/◌, ◌%◌, bit_xor, true, List, Option};
ghost use Rattle.ga_word.specs.Op.{code_of, fits_slot3, op_with};
ghost use Rattle.ga_word.specs.Word.{bits};
ghost use Rattle.ga_word.specs.declared.op.Op.{Op};
ghost use Rattle.ga_pack.specs.Decoded as decoded;
ghost use Rattle.ga_pack.specs.Reading.{Reads, stored, stored_upper};

use crate::keys::{SLOT0_KEY, SLOT1_KEY, SLOT2_KEY, SLOT3_KEY};
use crate::packed::Packed;
use arrayvec::ArrayVec;
use ga_word::{Op, Word18};

fn op_with_code(code: u32) -> Op
    requires { code < 32 }
    ensures code { code_of result ≡ code }
    ensures op { result ≡ op_with code }
{
    Op::from_code(code as u8).unwrap()
}

/// The opcode in slot 0 of a word, bits 17..13.
pub fn op_in_slot0(word: Word18) -> Op
    ensures bits { stored 0 result ≡ bits 5 (word / 2 ^ 13) }
    ensures op { result ≡ op_with (bit_xor (word / 2 ^ 13) 0x0A) }
{
    op_with_code(word.get() >> 13 ^ SLOT0_KEY)
}

/// The opcode in slot 1 of a word, bits 12..8. It is one of the word's opcodes if the one in slot 0
/// takes no destination.
pub fn op_in_slot1(word: Word18) -> Op
    ensures bits { stored 1 result ≡ bits 5 (word / 2 ^ 8) }
    ensures op { result ≡ op_with (bit_xor (word / 2 ^ 8 % 2 ^ 5) 0x15) }
{
    op_with_code(word.get() >> 8 & 0x1F ^ SLOT1_KEY)
}

/// The opcode in slot 2 of a word, bits 7..3. It is one of the word's opcodes if those in slots 0
/// and 1 take no destination.
pub fn op_in_slot2(word: Word18) -> Op
    ensures bits { stored 2 result ≡ bits 5 (word / 2 ^ 3) }
    ensures op { result ≡ op_with (bit_xor (word / 2 ^ 3 % 2 ^ 5) 0x0A) }
{
    op_with_code(word.get() >> 3 & 0x1F ^ SLOT2_KEY)
}

/// The opcode in slot 3 of a word, whose upper three bits are bits 2..0 and whose lower two are 0.
/// It is one of the word's opcodes if those in slots 0 to 2 take no destination.
pub fn op_in_slot3(word: Word18) -> Op
    ensures fits { fits_slot3 result ≡ true }
    ensures bits { stored_upper result ≡ bits 3 word }
    ensures op { result ≡ op_with (bit_xor (word % 2 ^ 3) 0x05 * 4) }
{
    op_with_code((word.get() & 7 ^ SLOT3_KEY) << 2)
}

/// The opcodes that a word packs, and the destination of the last one, as the F18A reference,
/// DB001, lays them out. Every word has exactly one reading, so this never fails, and it allocates
/// nothing.
///
/// Slot 0 is bits 17..13, slot 1 bits 12..8, slot 2 bits 7..3 and slot 3 bits 2..0. Slot 3 holds
/// the upper three bits of an opcode whose lower two bits are 0. Opcodes are stored XORed with
/// 15555 at the same places. The first opcode that takes a destination ends the word, and no other
/// does: the opcodes behind `;` or `ex` are read too. A destination is stored as it is: 10 bits,
/// 9..0, behind slot 0, 8 bits, 7..0, behind slot 1, and 3 bits, 2..0, behind slot 2.
#[tactic(auto, unfolding(crate::specs::Decoded::reading_of))]
pub fn decode(word: Word18) -> Packed
    // the word is spelled by these opcodes, this destination and these spare bits
    ensures reading { Reads (bits 18 word) result.ops.items result.dest result.spare }
    // and by no others
    ensures only { (ops : List Op) (dest : Option ℕ) (spare : ℕ)
        → Reads (bits 18 word) ops dest spare
        → (ops ≡ result.ops.items) × (dest ≡ result.dest) × (spare ≡ result.spare) }
    // the same as a function of the word's number
    ensures ops { result.ops.items ≡ (decoded.reading_of word).ops }
    ensures dest { result.dest ≡ (decoded.reading_of word).dest }
    ensures spare { result.spare ≡ (decoded.reading_of word).spare }
{
    let number = word.get();
    let mut ops = ArrayVec::new();
    let first = op_in_slot0(word);
    ops.push(first);
    if first.takes_dest() {
        let dest = Some((number & 0x3FF) as u16);
        let spare = (number >> 10 & 7) as u8;
        return Packed { ops, dest, spare };
    }
    // In all other words no bit is spare.
    let spare = 0;
    let second = op_in_slot1(word);
    ops.push(second);
    if second.takes_dest() {
        let dest = Some((number & 0xFF) as u16);
        return Packed { ops, dest, spare };
    }
    let third = op_in_slot2(word);
    ops.push(third);
    if third.takes_dest() {
        let dest = Some((number & 7) as u16);
        return Packed { ops, dest, spare };
    }
    ops.push(op_in_slot3(word));
    let dest = None;
    Packed { ops, dest, spare }
}
