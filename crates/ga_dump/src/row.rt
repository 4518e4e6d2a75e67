ghost use Rattle.std.specs.Prelude.{◌≡◌, ◌++◌, ◌∷◌, IsUtf8, OnOk, string_bytes};
ghost use Rattle.ga_word.specs.Hex.{hex_digits};
ghost use Rattle.ga_dump.specs.Row.{row_of};

use ga_word::{Word18, hex5};
use std::alloc::AllocError;

/// The bytes of a line of eight words, from the first space to the line's end.
pub const ROW_LENGTH: usize = 8 * 6 + 1;

/// Words as five hex digits, each behind a space, and the line's end.
pub fn push_row(text: &mut Vec<u8>, words: &[Word18]) -> Result<(), AllocError>
    ensures { OnOk result (text.new.items ≡ text.old.items ++ row_of words.now) }
{
    for word in words {
        push_word(text, *word)?;
    }
    text.push(b'\n')?;
    Ok(())
}

/// A word behind a space.
fn push_word(text: &mut Vec<u8>, word: Word18) -> Result<(), AllocError>
    ensures { OnOk result (text.new.items ≡ text.old.items ++ 32 ∷ hex_digits 5 word) }
{
    text.push(b' ')?;
    text.extend_from_slice(&hex5(word))?;
    Ok(())
}

/// Bytes as text.
pub fn text_of(bytes: Vec<u8>) -> String
    requires { IsUtf8 bytes.items }
    ensures { string_bytes result ≡ bytes.items }
{
    String::from_utf8(bytes).unwrap()
}
