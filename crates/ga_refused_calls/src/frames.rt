//! Calls of frames.
use crate::told::Told;
use ga_frame::{Frame, FrameError, FrameFeed, read_frames, write_frame};
use ga_word::Word18;
use std::alloc::{AllocError, Global};

/// Two frames: one with three words, and the last, with one.
const STREAM: [u32; 10] = [
    0x000AE, 0x001D5, 0x00003, 0x04A12, 0x00005, 0x00003, 0x00001, 0x00000, 0x00001, 0x2C9B2,
];

/// How many of the words come in a first piece: they end inside the first frame.
const FIRST: usize = 5;

/// The words of the two frames.
fn stream(alloc: Global) -> Result<Vec<Word18>, AllocError> {
    let mut words = Vec::with_capacity(alloc, STREAM.len())?;
    for number in STREAM {
        words.push(Word18::new(number).unwrap_or_default())?;
    }
    Ok(words)
}

/// The words of a frame whose words are borrowed.
pub fn write_frame_told(alloc: Global) -> Result<Told, AllocError> {
    let words = stream(alloc)?;
    let same = stream(alloc)?;
    let came = write_frame(alloc, Word18::default(), Word18::default(), &words);
    Ok(told_of(came.err(), words == same))
}

/// The frames of borrowed words.
pub fn read_frames_told(alloc: Global) -> Result<Told, AllocError> {
    let words = stream(alloc)?;
    let same = stream(alloc)?;
    let came = read_frames(alloc, &words);
    Ok(told_of(came.err(), words == same))
}

/// The frames of a second piece, by a reader that has the first. After a refusal it must give what
/// a reader gives to which that piece wasn't fed before.
pub fn feed_told(alloc: Global) -> Result<Told, AllocError> {
    let words = stream(alloc)?;
    let first = words.get(..FIRST).unwrap_or_default();
    let second = words.get(FIRST..).unwrap_or_default();
    let mut feed = begun(alloc, first)?;
    let other = begun(alloc, first)?;
    let came = feed.feed(second);
    let is_alike = came.is_ok() || behind(feed, second)? == behind(other, second)?;
    Ok(told_of(came.err(), is_alike))
}

/// A reader to which a piece was fed.
fn begun(alloc: Global, piece: &[Word18]) -> Result<FrameFeed, AllocError> {
    let mut feed = FrameFeed::new(alloc);
    match feed.feed(piece) {
        Ok(_) => Ok(feed),
        Err(_) => Err(AllocError),
    }
}

/// What a reader gives for a last piece, and whether the stream is whole then.
fn behind(feed: FrameFeed, piece: &[Word18]) -> Result<(Vec<Frame>, bool), AllocError> {
    let mut feed = feed;
    match feed.feed(piece) {
        Ok(frames) => Ok((frames, feed.finish().is_ok())),
        Err(_) => Err(AllocError),
    }
}

fn told_of(fault: Option<FrameError>, is_alike: bool) -> Told {
    match fault {
        None => Told::Answered,
        Some(fault) => Told::failed(fault == FrameError::Memory, is_alike),
    }
}
