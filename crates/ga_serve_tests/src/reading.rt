//! Inputs are read up to the limit, whatever the pieces they come in.
use crate::streams::{FIVE_TRIES, Restless, WORDS, sink_of, source_of};
use ga_input::{InputFault, Reads, ServeError, WordsFault, read_input};
use ga_jobs::{Ending, serve};
use std::alloc::{AllocError, Global};
use std::io::ErrorKind;
use std::test::Fail;
use std::thread::Threads;
use std::time::Clock;

/// The four words, filled with spaces to `len` bytes.
fn padded(alloc: Global, len: usize) -> Result<Vec<u8>, AllocError> {
    let mut input = WORDS.as_bytes().to_vec(alloc)?;
    input.resize(len, b' ')?;
    Ok(input)
}

/// How `one 5` ends for an input, and how many of its bytes aren't read then, by reads of at most
/// `most` bytes.
fn left_of(
    rt: &(impl AllocGlobal + Threads + Clock + Sync),
    input: &[u8],
    most: usize,
) -> (Result<Ending, ServeError>, usize) {
    let mut reader = source_of(input, most);
    let mut writer = sink_of(rt.alloc(), 8192);
    let outcome = serve(rt, &mut reader, &mut writer, &FIVE_TRIES);
    (outcome, reader.bytes.len())
}

#[test]
fn reads_up_to_the_limit(rt: HostRuntime) -> Result<(), Fail> {
    let alloc = rt.alloc();
    let accepted = padded(alloc, 1_048_576)?;
    let refused = padded(alloc, 1_048_585)?;
    for most in [1, 8192] {
        assert!(rt; left_of(&rt, &accepted, most) == (Ok(Ending::Done), 0));
        // one byte past the limit is read
        let too_long = Err(ServeError::Input(InputFault::TooLong));
        assert!(rt; left_of(&rt, &refused, most) == (too_long, 8));
    }
    Ok(())
}

#[test]
fn counts_reads(rt: HostRuntime) {
    // 23 bytes, 6 at a call, and a read at the end
    for (fails_at, kind, has_failed, calls) in [
        (None, ErrorKind::Other, false, 5),
        (Some(1), ErrorKind::Other, true, 2),
        (Some(1), ErrorKind::Interrupted, false, 6),
    ] {
        let mut reader = source_of(WORDS.as_bytes(), 6);
        reader.fails_at = fails_at;
        reader.kind = kind;
        let mut reads = Reads::default();
        let input = read_input(rt.alloc(), &mut reader, &mut reads);
        assert!(rt; input.is_err() == has_failed && reads.has_failed() == has_failed);
        assert!(rt; reads.calls() == calls);
    }
}

/// The last read is allowed to give the end, and no read is made behind it.
#[test]
fn reads_so_many_times(rt: HostRuntime) {
    for (interruptions, expected) in [
        (2_097_151, Err(ServeError::Words(WordsFault::Empty))),
        (2_097_152, Err(ServeError::Read)),
    ] {
        let mut reader = Restless {
            interruptions,
            calls: 0,
        };
        let mut writer = sink_of(rt.alloc(), 8192);
        let outcome = serve(&rt, &mut reader, &mut writer, &FIVE_TRIES);
        assert!(rt; outcome == expected);
        assert!(rt; reader.calls == 2_097_152 && writer.calls == 0);
    }
}
