//! Conversations at the prompt, by readers and writers that fail at each call in turn, or are
//! interrupted, or take and give one byte at a call.
use crate::streams::{sink_of, source_of};
use ga_input::ServeError;
use ga_prompt::{Conversation, SaveFault, Saves};
use ga_transcript::Live;
use std::alloc::Global;
use std::io::ErrorKind;
use std::test::Fail;

/// A session of a node that counts, and its first command.
const SESSION: &str = "profile 2\nplace\nnode 000 x: 1 . + jump x\ngo\n> turn 4\n";

/// Lines of each kind, the last of which ends the conversation.
const LINES: &str =
    "regs 000\n\nturn 2\nback 2\nhelp turn\nsave kept\nsave\nturm 1\nmem 000\nquit\n";

/// How many bytes are read and written at a call.
const PIECE: usize = 16;

/// How many calls are made at the most.
const MOST: u32 = 2000;

/// Knows whether a transcript was saved.
#[derive(Drop)]
struct Kept {
    is_kept: bool,
}

impl Saves for Kept {
    fn save(&mut self, _name: &str, _text: &str, replaces: bool) -> Result<(), SaveFault> {
        if self.is_kept && !replaces {
            return Err(SaveFault::Exists);
        }
        self.is_kept = true;
        Ok(())
    }
}

/// What a conversation leaves: how it ended, what was written, and how many reads and calls of the
/// writer that took.
#[derive(Drop)]
struct Left {
    outcome: Result<(), ServeError>,
    taken: Vec<u8>,
    reads: u32,
    writes: u32,
}

/// Talks, by reads and writes of at most this many bytes. One read fails, in this way, or one call
/// of the writer.
fn talked(
    alloc: Global,
    most: usize,
    read_fails: Option<u32>,
    kind: ErrorKind,
    write_fails: Option<u32>,
) -> Result<Left, Fail> {
    let live = Live::open(alloc, SESSION)?;
    let mut conversation = Conversation::new(alloc, live, true)?;
    let mut reader = source_of(LINES.as_bytes(), most);
    reader.fails_at = read_fails;
    reader.kind = kind;
    let mut writer = sink_of(alloc, most);
    writer.fails_at = write_fails;
    let mut kept = Kept { is_kept: false };
    let outcome = conversation.talk(alloc, &mut kept, &mut reader, &mut writer);
    Ok(Left {
        outcome,
        taken: writer.taken,
        reads: reader.calls,
        writes: writer.calls,
    })
}

#[test]
fn talks_byte_by_byte(rt: HostRuntime) -> Result<(), Fail> {
    let whole = talked(rt.alloc(), 8192, None, ErrorKind::Other, None)?;
    let bytes = talked(rt.alloc(), 1, None, ErrorKind::Other, None)?;
    assert!(rt; whole.outcome == Ok(()) && bytes.outcome == Ok(()));
    assert!(rt; !whole.taken.is_empty() && bytes.taken == whole.taken);
    Ok(())
}

#[test]
fn fails_at_each_read_of_a_conversation(rt: HostRuntime) -> Result<(), Fail> {
    let alloc = rt.alloc();
    let whole = talked(alloc, PIECE, None, ErrorKind::Other, None)?;
    assert!(rt; whole.reads > 1 && whole.reads < MOST);
    for call in 0..whole.reads {
        let failed = talked(alloc, PIECE, Some(call), ErrorKind::Other, None)?;
        assert!(rt; failed.outcome == Err(ServeError::Read), "read {call}");
        assert!(rt; whole.taken.starts_with(&failed.taken), "read {call}");
        let goes_on = talked(alloc, PIECE, Some(call), ErrorKind::Interrupted, None)?;
        assert!(rt;
            goes_on.outcome == Ok(()) && goes_on.taken == whole.taken,
            "read {call}"
        );
    }
    Ok(())
}

#[test]
fn fails_at_each_write_of_a_conversation(rt: HostRuntime) -> Result<(), Fail> {
    let alloc = rt.alloc();
    let whole = talked(alloc, PIECE, None, ErrorKind::Other, None)?;
    assert!(rt; whole.writes > 1 && whole.writes < MOST);
    for call in 0..whole.writes {
        let failed = talked(alloc, PIECE, None, ErrorKind::Other, Some(call))?;
        assert!(rt; failed.outcome == Err(ServeError::Write), "write {call}");
        assert!(rt; whole.taken.starts_with(&failed.taken), "write {call}");
        assert!(rt; failed.writes == call + 1, "write {call}");
    }
    Ok(())
}
