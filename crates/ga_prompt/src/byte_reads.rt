ghost use Rattle.std.specs.Prelude.{◌≡◌, ◌<◌, IfErr, IfOk};
ghost use Rattle.ga_prompt.specs.Reading.{ReadFails};
ghost use Rattle.ga_prompt.specs.inner.Typed.{IsByte};

use ga_input::ServeError;
use std::io::{ErrorKind, Read};

/// The reads of single bytes: how many may still be made, and whether one failed.
#[derive(Drop)]
pub(crate) struct ByteReads {
    left: u64,
    has_failed: bool,
}

impl ByteReads {
    /// No read was made yet, so 2^64 - 1 may be.
    pub(crate) fn new() -> Self {
        ByteReads {
            left: u64::MAX,
            has_failed: false,
        }
    }

    /// The next byte of a reader, or `None` at its end. A read that was interrupted is made again,
    /// and after any other failure the answer is `Read`.
    pub(crate) fn next_byte<R: Read>(&mut self, reader: &mut R) -> Result<Option<u8>, ServeError>
        ensures byte { IfOk result (IsByte (R.remaining reader.old) (R.remaining reader.new)) }
        ensures fewer { IfOk result (λ _. self.new.left < self.old.left) }
        ensures fault { IfErr result (ReadFails self.new) }
    {
        let mut byte = [0];
        while self.left > 0 {
            self.left -= 1;
            match reader.read(&mut byte) {
                Ok(0) => return Ok(None),
                Ok(_) => return Ok(Some(byte[0])),
                Err(error) if error.kind() == ErrorKind::Interrupted => {}
                Err(_) => {
                    self.has_failed = true;
                    return Err(ServeError::Read);
                }
            }
        }
        Err(ServeError::Read)
    }
}
