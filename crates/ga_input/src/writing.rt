ghost use Rattle.std.specs.Prelude.{◌≡◌, ◌-◌, ◌^◌, ◌⊎◌, ℕ, OnOk, OnErr, IfErr, false, take, true};
ghost use Rattle.std.specs.Io.KnownBytes.{Appends};
ghost use Rattle.ga_input.specs.Writing.{calls_of, has_failed};

use crate::fault::ServeError;
use crate::writes::Writes;
use std::io::{ErrorKind, Write};

/// Writes all of a text and flushes the writer. An interrupted write is tried again.
///
/// It fails only if a write or the flush failed, or after 2^64 - 1 calls of `write`. Then a prefix
/// of the text was written and nothing else.
pub fn write_output<W: Write>(
    writer: &mut W,
    text: &[u8],
    writes: &mut Writes,
) -> Result<(), ServeError>
    ensures written { OnOk result
        (Appends (W.contents writer.old) (W.contents writer.new) text.now) }
    ensures part { OnErr result ((count : ℕ)
        × Appends (W.contents writer.old) (W.contents writer.new) (take count text.now)) }
    ensures fault { IfErr result (λ fault. fault ≡ ServeError.Write) }
    // if no call was made before, and so none failed
    ensures failed { calls_of writes.old ≡ 0 → has_failed writes.old ≡ false → OnErr result
        ((has_failed writes.new ≡ true) ⊎ (calls_of writes.new ≡ 2 ^ 64 - 1)) }
    ensures unfailed { has_failed writes.old ≡ false → OnOk result
        (has_failed writes.new ≡ false) }
{
    let mut rest = text;
    for _ in 0..u64::MAX {
        if rest.is_empty() {
            return match writes.flush(writer) {
                Ok(()) => Ok(()),
                Err(_) => Err(ServeError::Write),
            };
        }
        match writes.write(writer, rest) {
            Ok(0) => return Err(ServeError::Write),
            Ok(count) => rest = &rest[count..],
            Err(error) if error.kind() == ErrorKind::Interrupted => {}
            Err(_) => return Err(ServeError::Write),
        }
    }
    Err(ServeError::Write)
}
