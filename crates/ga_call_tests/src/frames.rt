//! Frames of words, which the program only makes.
use crate::values::{array, words};
use ga_frame::{FrameError, FrameFeed, read_frames, write_frame};
use std::test::Fail;

#[test]
fn frame_faults(rt: HostRuntime) -> Result<(), Fail> {
    let alloc = rt.alloc();
    for (numbers, fault) in [
        (
            [0x000AE, 0x00000, 0x00000].as_slice(),
            FrameError::CutHeader(3),
        ),
        (
            &[0x001B5, 0x00000, 0x00002, 0x2C9B2],
            FrameError::CutBody(0),
        ),
        (
            &[0x001B5, 0x00000, 0x00000, 0x2C9B2],
            FrameError::AfterEnd(3),
        ),
        // a bad address comes before a cut body
        (&[0x001B5, 0x00141, 0x00009], FrameError::BadAddress(0)),
    ] {
        assert!(rt; read_frames(alloc, &words(alloc, numbers)?).err() == Some(fault));
    }
    Ok(())
}

/// The last frame of a stream, which has one word.
const LAST: [u32; 4] = [0x001B5, 0x00000, 0x00001, 0x2C9B2];

#[test]
fn a_frame_is_written_and_read(rt: HostRuntime) -> Result<(), Fail> {
    let alloc = rt.alloc();
    let [completion, transfer, only] = array::<3>(&[0x1B5, 0, 0x2C9B2])?;
    let (front, rest) = (words(alloc, &LAST[..2])?, words(alloc, &LAST[2..])?);
    let written = write_frame(alloc, completion, transfer, &[only])?;
    assert!(rt; written.starts_with(&front) && written.ends_with(&rest));
    assert!(rt; read_frames(alloc, &written)?.len() == 1);
    let mut feed = FrameFeed::new(alloc);
    assert!(rt; feed.feed(&front)?.is_empty());
    let frames = feed.feed(&rest)?;
    assert!(rt; frames.len() == 1);
    assert!(rt;
        frames[0].completion.get() == 0x1B5 && frames[0].words.as_slice() == [only].as_slice()
    );
    assert!(rt; feed.finish() == Ok(()));
    Ok(())
}
