//! Where a node is in its program.
ghost use Rattle.std.specs.Prelude.{◌≡◌, ◌^◌, ◌<◌};
ghost use Rattle.ga_trace.specs.At.{advanced_by, at_word, retreat};

use ga_asm::p_behind;
use ga_node::Place;
use ga_pack::decode;
use ga_word::Word18;

/// The address of the word in execution, ten bits, by the place of the node, P and the word; before
/// a fetch it is P. P has passed the word and the words that its slots before this one used with
/// `@p` and `!p` (the F18A reference, DB001). If `unext` repeats such a word, the address is one
/// behind it.
#[tactic(auto, unfolding(crate::specs::At::at_word))]
pub fn at_word(place: Place, p: u16, word: Word18) -> u16
    requires { p < 2 ^ 10 }
    ensures address { result ≡ at_word place p word }
    ensures bound { result < 2 ^ 10 }
{
    match place {
        Place::Slot0 => retreat(advances(word, 0), p),
        Place::Slot1 => retreat(advances(word, 1), p),
        Place::Slot2 => retreat(advances(word, 2), p),
        Place::Slot3 => retreat(advances(word, 3), p),
        _ => p,
    }
}

/// How often P has advanced since the fetch of a word, before the slot of this number.
fn advances(word: Word18, slot: usize) -> u8
    ensures { result ≡ advanced_by slot word }
{
    let packed = decode(word);
    let ops = packed.ops.as_slice();
    p_behind(0, ops.get(..slot).unwrap_or(ops))
}

/// The address that advances to this one in some steps.
fn retreat(steps: u8, address: u16) -> u16
    requires { address < 2 ^ 10 }
    ensures address { result ≡ retreat steps address }
    ensures bound { result < 2 ^ 10 }
{
    if address / 0x100 % 2 == 1 {
        return address;
    }
    address / 0x80 * 0x80 + (address % 0x80 + 0x100 - u16::from(steps)) % 0x80
}
