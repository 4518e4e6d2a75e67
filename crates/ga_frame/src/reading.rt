ghost use Rattle.std.specs.Prelude.{◌≡◌, List, IfErr, IfOk, map};
ghost use Rattle.ga_frame.specs.Frame.{AreFrames, FrameView, HasNoFrames, IsFirstFault, frame_view};

use crate::error::FrameError;
use crate::feed::FrameFeed;
use crate::frame::Frame;
use ga_word::Word18;
use std::alloc::Global;

/// The frames of a stream, or its first fault: for each frame in order its three first words, its
/// addresses, its words, and then the words behind the last one. A word's number in a fault counts
/// from 0. Fails with [`FrameError::Memory`] only when out of memory. (Frames are this project's
/// own: profile.)
pub fn read_frames(alloc: Global, words: &[Word18]) -> Result<Vec<Frame>, FrameError>
    ensures frames { IfOk result (λ frames. AreFrames words.now (map frame_view frames.items)) }
    // they are the only frames of these words
    ensures only { IfOk result (λ frames. (other : List FrameView) → AreFrames words.now other
        → other ≡ map frame_view frames.items) }
    // each fault but `Memory` is the first one
    ensures fault { IfErr result (λ error. IsFirstFault words.now error) }
    // and the words are no frames
    ensures none { IfErr result (λ error. HasNoFrames words.now error) }
{
    let mut feed = FrameFeed::new(alloc);
    let frames = feed.feed(words)?;
    feed.finish()?;
    Ok(frames)
}
