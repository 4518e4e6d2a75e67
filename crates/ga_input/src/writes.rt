ghost use Rattle.std.specs.Prelude.{◌≡◌, ◌≢◌, ◌+◌, ◌<◌, ◌-◌, ◌^◌, IfErr, IfOk, OnOk, true};
ghost use Rattle.std.specs.Io.KnownBytes.{Keeps, WriteAppends};
ghost use Rattle.std.specs.Io.{WritesAtMost};
ghost use Rattle.std.specs.IoError.{error_kind};
ghost use Rattle.ga_input.specs.Writing.{calls_of, has_failed};

use std::io;
use std::io::{ErrorKind, Write};

/// How many calls of `write` an output took, and whether one failed, or a flush did. It is made by
/// `default`, with no call yet, and each call goes through it.
#[derive(Default, Drop)]
pub struct Writes {
    calls: u64,
    has_failed: bool,
}

impl Writes {
    /// Calls `write` once. A call that fails or takes no byte is a failure, unless it was
    /// interrupted.
    pub(crate) fn write<W: Write>(&mut self, writer: &mut W, text: &[u8]) -> io::Result<usize>
        ensures bound { WritesAtMost result text.now }
        ensures bytes { WriteAppends (W.contents writer.old) (W.contents writer.new)
            result text.now }
        ensures counted { calls_of self.old < 2 ^ 64 - 1
            → calls_of self.new ≡ calls_of self.old + 1 }
        ensures none { result ≡ Ok 0 → has_failed self.new ≡ true }
        ensures failed { IfErr result (λ error. error_kind error ≢ ErrorKind.Interrupted
            → has_failed self.new ≡ true) }
        ensures kept { IfOk result (λ count. 0 < count
            → has_failed self.new ≡ has_failed self.old) }
        ensures interrupted { IfErr result (λ error. error_kind error ≡ ErrorKind.Interrupted
            → has_failed self.new ≡ has_failed self.old) }
    {
        self.calls = self.calls.saturating_add(1);
        let answer = writer.write(text);
        match &answer {
            Ok(0) => self.has_failed = true,
            Ok(_) => {}
            Err(error) => {
                if error.kind() != ErrorKind::Interrupted {
                    self.has_failed = true;
                }
            }
        }
        answer
    }

    /// Flushes the writer.
    pub(crate) fn flush<W: Write>(&mut self, writer: &mut W) -> io::Result<()>
        ensures bytes { Keeps (W.contents writer.old) (W.contents writer.new) }
        ensures failed { IfErr result (λ error. has_failed self.new ≡ true) }
        ensures kept { OnOk result (has_failed self.new ≡ has_failed self.old) }
    {
        let answer = writer.flush();
        if answer.is_err() {
            self.has_failed = true;
        }
        answer
    }
}
