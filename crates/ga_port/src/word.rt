ghost use Rattle.std.specs.Prelude.{◌≡◌, ◌<◌, ◌^◌, IfSome, Some};
ghost use Rattle.ga_port.specs.Rule.{word_of};
ghost use Rattle.ga_port.specs.inner.Entering.{IsCellWord, pending_of};

use ga_word::Word18;

/// The value of a cell in which no word is pending.
pub(crate) const EMPTY: u64 = 0;

/// What a full cell holds beside its word.
const FULL: u64 = 1 << 18;

/// The value of a cell in which this word is pending.
#[inline]
pub(crate) fn full(word: Word18) -> u64
    ensures value { result ≡ word_of (Some word) }
    ensures bound { word < 2 ^ 18 }
{
    FULL + u64::from(word.get())
}

/// The value of a cell in which this word, or none, is pending.
pub(crate) fn held_by(pending: Option<Word18>) -> u64
    ensures value { result ≡ word_of pending }
    ensures bound { IfSome pending (λ word. word < 2 ^ 18) }
{
    match pending {
        Some(word) => full(word),
        None => EMPTY,
    }
}

/// The word that is pending in a cell, if one is, by what the cell holds.
#[inline]
pub(crate) fn pending(held: u64) -> Option<Word18>
    requires { IsCellWord held }
    ensures { result ≡ pending_of held }
{
    if held == EMPTY {
        return None;
    }
    Word18::new((held - FULL) as u32)
}
