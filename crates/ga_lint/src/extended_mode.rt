//! Which words of a node run in extended mode, as far as the text shows.
ghost use Rattle.std.specs.Prelude.{◌≡◌, ◌<◌, ◌≤◌, length, map};
ghost use Rattle.std.specs.List.{list_any};
ghost use Rattle.ga_disasm.specs.Disassembling.{item_view};
ghost use Rattle.ga_lint.specs.ExtendedMode as spec;

use crate::reaching::goes_to;
use arrayvec::ArrayVec;
use ga_disasm::Item;
use ga_word::Op;

/// For each word whether it runs in extended mode.
pub(crate) fn extended_words(words: &[Item]) -> ArrayVec<bool, 64>
    requires { length words.now ≤ 64 }
    ensures { result.items ≡ spec.extended_words (map item_view words.now) }
{
    let mut known = ArrayVec::new();
    let mut comes = false;
    for (at, word) in words.iter().enumerate() {
        let extended = runs_extended(words, comes, known.as_slice(), at, word);
        known.push(extended);
        comes = comes_behind(comes, extended, word);
    }
    known
}

/// Whether it is known of a word that it runs in extended mode.
pub(crate) fn is_known(known: &[bool], at: usize) -> bool
    ensures { result ≡ spec.is_known known.now at }
{
    match known.get(at) {
        Some(extended) => *extended,
        None => false,
    }
}

/// Whether the word at an address runs in extended mode. It comes there from the word before or
/// not, and it is known of the words before.
fn runs_extended(words: &[Item], comes: bool, known: &[bool], at: usize, word: &Item) -> bool
    requires { length words.now ≤ 64 }
    ensures { result
        ≡ spec.runs_extended (map item_view words.now) comes known.now at (item_view word.now) }
{
    matches!(word, Item::Code(_)) && (comes || is_entered(words, at) || is_led_to(words, known, at))
}

/// Whether one of these words enters extended mode at an address.
fn is_entered(words: &[Item], address: usize) -> bool
    ensures { result ≡ list_any (spec.enters_at address) (map item_view words.now) }
{
    for word in words {
        if enters_at(word, address) {
            return true;
        }
    }
    false
}

fn enters_at(word: &Item, address: usize) -> bool
    ensures { result ≡ spec.enters_at address (item_view word.now) }
{
    match slot0_dest(word) {
        Some(dest) => dest >= 0x200 && usize::from(dest - 0x200) == address,
        None => false,
    }
}

/// Whether one of these words of which that is known leads to an address, and keeps the mode.
fn is_led_to(words: &[Item], known: &[bool], address: usize) -> bool
    requires { length words.now ≤ 64 }
    ensures { result ≡ spec.is_led_to known.now address 0 (map item_view words.now) }
{
    for (at, word) in words.iter().enumerate() {
        if is_known(known, at) && keeps_to(at, word, address) {
            return true;
        }
    }
    false
}

/// Whether the word there goes to an address by a destination in slot 1 or 2.
fn keeps_to(at: usize, word: &Item, address: usize) -> bool
    requires { at < 64 }
    ensures { result ≡ spec.keeps_to address at (item_view word.now) }
{
    slot0_dest(word).is_none() && goes_to(at, word, address)
}

/// The destination of a word in slot 0.
pub(crate) fn slot0_dest(word: &Item) -> Option<u16>
    ensures { result ≡ spec.slot0_dest (item_view word.now) }
{
    match word {
        Item::Code(packed) => match *packed.ops.as_slice() {
            [_] => packed.dest,
            _ => None,
        },
        _ => None,
    }
}

/// Whether extended mode comes behind a word, which runs so or doesn't.
fn comes_behind(comes: bool, extended: bool, word: &Item) -> bool
    ensures { result ≡ spec.comes_behind comes extended (item_view word.now) }
{
    match word {
        Item::Code(packed) => extended && stays_on(packed.ops.as_slice()),
        Item::Follower(_) => comes,
        Item::Data(_) => false,
    }
}

/// Whether execution goes on behind a word with these opcodes, in the same mode.
fn stays_on(ops: &[Op]) -> bool
    ensures { result ≡ spec.stays_on ops.now }
{
    for op in ops {
        if matches!(op, Op::Return | Op::Jump) {
            return false;
        }
        if op.ends_word() {
            return true;
        }
    }
    true
}
