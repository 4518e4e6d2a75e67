ghost use Rattle.std.specs.Prelude.{None, Option};
ghost use Rattle.ga_prompt.specs.Saving.{Files, SavesOne, saved_file};
ghost use Rattle.ga_transcript.specs.Record.{Holds};

use std::io;

/// Why a session wasn't saved.
#[derive(Clone, Copy, Drop)]
pub enum SaveFault {
    /// There is a file with this name.
    Exists,
    /// What has this name is no regular file.
    NotAFile,
    /// The file can't be written, for this reason.
    Write(io::Error),
    /// Memory ran out.
    Memory,
}

/// Where sessions are saved.
pub trait Saves {
    /// What was saved, if it is known: it is for saves in memory, and not for the files of a
    /// system.
    ghost saved: { Self → Option Files } = { λ _. None };

    /// Writes a transcript to the file with a name. With `replaces` a regular file that is there is
    /// replaced in one step; without, it is refused as [`SaveFault::Exists`]. A fault leaves all
    /// files as they were.
    fn save(&mut self, name: &str, transcript: &str, replaces: bool) -> Result<(), SaveFault>
        // each command has the reply behind it
        requires { Holds transcript.now }
        ensures { SavesOne (saved self.old) (saved self.new)
            (saved_file replaces name.now transcript.now) result };
}
