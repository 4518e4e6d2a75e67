ghost use Rattle.std.specs.Prelude.{◌≡◌, ◌≢◌, ◌+◌, ◌<◌, Err, IfErr, IfOk, Ok, true};
ghost use Rattle.std.specs.Io.KnownBytes.{ReadConsumes};
ghost use Rattle.std.specs.IoError.{error_kind};
ghost use Rattle.std.specs.Io.{ReadsAtMost};
ghost use Rattle.ga_input.specs.Reading.{calls_of, has_failed};

use crate::fault::ServeError;
use std::io;
use std::io::{ErrorKind, Read};

/// How many calls of `read` an input took, and whether one failed. It is made by `default`, with
/// no call yet, and each call goes through it.
#[derive(Default, Drop)]
pub struct Reads {
    calls: u32,
    has_failed: bool,
}

impl Reads {
    /// How many calls were made.
    pub fn calls(&self) -> u32
        ensures { result ≡ calls_of self.now }
    {
        self.calls
    }

    /// Whether a call failed for another reason than an interruption.
    pub fn has_failed(&self) -> bool
        ensures { result ≡ has_failed self.now }
    {
        self.has_failed
    }

    /// Calls `read` once.
    pub(crate) fn read<R: Read>(&mut self, reader: &mut R, buffer: &mut [u8]) -> io::Result<usize>
        ensures bound { ReadsAtMost result buffer.new }
        ensures bytes { ReadConsumes (R.remaining reader.old) (R.remaining reader.new)
            result buffer.new }
        ensures counted { calls_of self.old < 2097152 → calls_of self.new ≡ calls_of self.old + 1 }
        ensures kept { IfOk result (λ _. has_failed self.new ≡ has_failed self.old) }
        ensures interrupted { IfErr result (λ error. error_kind error ≡ ErrorKind.Interrupted
            → has_failed self.new ≡ has_failed self.old) }
        ensures failed { IfErr result (λ error. error_kind error ≢ ErrorKind.Interrupted
            → has_failed self.new ≡ true) }
    {
        self.calls = self.calls.saturating_add(1);
        let answer = reader.read(buffer);
        if let Err(error) = &answer {
            if error.kind() != ErrorKind::Interrupted {
                self.has_failed = true;
            }
        }
        answer
    }
}

/// What follows a failed read: an interrupted one is tried again, and any other ends the input with
/// `Read`.
pub fn tried_again(error: &io::Error) -> Result<(), ServeError>
    ensures interrupted { error_kind error.now ≡ ErrorKind.Interrupted → result ≡ Ok tt }
    ensures other { error_kind error.now ≢ ErrorKind.Interrupted
        → result ≡ Err ServeError.Read }
    ensures read { IfErr result (λ fault. (fault ≡ ServeError.Read)
        × (error_kind error.now ≢ ErrorKind.Interrupted)) }
{
    if error.kind() == ErrorKind::Interrupted {
        return Ok(());
    }
    Err(ServeError::Read)
}
