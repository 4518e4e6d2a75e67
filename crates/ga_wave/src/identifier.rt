//! The identifiers of signals.
ghost use Rattle.std.specs.Prelude.{◌≡◌, ◌++◌, ◌<◌, ◌∷◌, [], ◌+◌, ◌*◌, OnOk, string_bytes};
ghost use Rattle.ga_wave.specs.Identifier.{identifier};

use std::alloc::AllocError;

/// Adds the identifier of a number.
pub(crate) fn push_identifier(text: &mut String, number: usize) -> Result<(), AllocError>
    requires { number < 94 * 95 }
    ensures { OnOk result (string_bytes text.new ≡ string_bytes text.old ++ identifier number) }
{
    if number < 94 {
        return push_sign(text, number);
    }
    push_sign(text, number / 94 - 1)?;
    push_sign(text, number % 94)
}

/// Adds the printable character of a number.
fn push_sign(text: &mut String, number: usize) -> Result<(), AllocError>
    requires { number < 94 }
    ensures { OnOk result (string_bytes text.new ≡ string_bytes text.old ++ (33 + number) ∷ []) }
{
    text.push(char::from(33 + number as u8))
}
