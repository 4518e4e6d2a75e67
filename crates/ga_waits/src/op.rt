ghost use Rattle.std.specs.Prelude.{◌≡◌, ◌++◌, ◌<◌, OnOk, string_bytes};
ghost use Rattle.std.specs.List.{slice_get};
ghost use Rattle.std.specs.Option.{unwrap_or};
ghost use Rattle.ga_word.specs.declared.op.Op.TheVariants.{Nop};
ghost use Rattle.ga_pack.specs.Decoded.{reading_of};
ghost use Rattle.ga_waits.specs.Line.{op_text};

use ga_node::Place;
use ga_pack::decode;
use ga_word::{Op, Word18};
use std::alloc::AllocError;
use std::fmt::Write;

/// Adds the opcode of a node's slot, behind a space, if its place is a slot.
pub fn push_op(text: &mut String, place: Place, word: Word18) -> Result<(), AllocError>
    ensures { OnOk result (string_bytes text.new ≡ string_bytes text.old ++ op_text place word) }
{
    match place {
        Place::Slot0 => write!(text, " {}", op_in(word, 0))?,
        Place::Slot1 => write!(text, " {}", op_in(word, 1))?,
        Place::Slot2 => write!(text, " {}", op_in(word, 2))?,
        Place::Slot3 => write!(text, " {}", op_in(word, 3))?,
        _ => {}
    }
    Ok(())
}

/// The opcode of a word in a slot, or `.` if the word has no such slot.
fn op_in(word: Word18, slot: usize) -> Op
    ensures { result ≡ unwrap_or (slice_get (reading_of word).ops slot) Nop }
{
    decode(word)
        .ops
        .as_slice()
        .get(slot)
        .copied()
        .unwrap_or(Op::Nop)
}
