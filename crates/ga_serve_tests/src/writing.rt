//! Writes that are interrupted, and a writer that takes nothing.
use crate::streams::{FIVE_TRIES, LINE, WORDS, sink_of, source_of};
use ga_input::ServeError;
use ga_jobs::{Ending, serve};
use std::io::ErrorKind;

#[test]
fn goes_on_behind_an_interrupted_write(rt: HostRuntime) {
    // 92 bytes, 40 at a call
    for call in 0..3 {
        let mut writer = sink_of(rt.alloc(), 40);
        writer.fails_at = Some(call);
        writer.kind = ErrorKind::Interrupted;
        let mut reader = source_of(WORDS.as_bytes(), 8192);
        let outcome = serve(&rt, &mut reader, &mut writer, &FIVE_TRIES);
        let is_whole = writer.taken.as_slice() == LINE.as_bytes();
        assert!(rt; outcome == Ok(Ending::Done) && is_whole, "at call {call}");
    }
}

#[test]
fn fails_where_nothing_is_taken(rt: HostRuntime) {
    let mut writer = sink_of(rt.alloc(), 0);
    let mut reader = source_of(WORDS.as_bytes(), 8192);
    let outcome = serve(&rt, &mut reader, &mut writer, &FIVE_TRIES);
    assert!(rt; outcome == Err(ServeError::Write) && writer.calls == 1);
}
