ghost use Rattle.std.specs.Prelude.{◌≡◌, ◌⊎◌, IfErr, IfOk, map};
ghost use Rattle.std.specs.List.{flat_map};
ghost use Rattle.ga_frame.specs.Frame.{AreFrames, IsFirstFault, frame_view};
ghost use Rattle.ga_frame.specs.declared.error.FrameError.TheVariants.{Counted};

use crate::cut::Cut;
use ga_frame::{Frame, FrameError, FrameFeed, read_frames};
use ga_word::Word18;
use std::alloc::Global;

/// The frames of a stream that comes in these pieces.
fn frames_in_pieces(alloc: Global, pieces: &[&[Word18]]) -> Result<Vec<Frame>, FrameError>
    ensures frames { IfOk result (λ frames. AreFrames (flat_map (λ piece. piece.now) pieces.now)
        (map frame_view frames.items)) }
    ensures fault { IfErr result (λ error. (error ≡ Counted)
        ⊎ IsFirstFault (flat_map (λ piece. piece.now) pieces.now) error) }
{
    let mut feed = FrameFeed::new(alloc);
    let mut frames = Vec::new(alloc);
    for piece in pieces {
        frames.append(&mut feed.feed(piece)?)?;
    }
    feed.finish()?;
    Ok(frames)
}

/// Whether a stream that is cut so has other frames than it has in the whole.
pub fn frames_differ(alloc: Global, words: &[Word18], cut: Cut) -> Result<bool, FrameError> {
    let pieces = cut.pieces(alloc, words)?;
    Ok(frames_in_pieces(alloc, &pieces)? != read_frames(alloc, words)?)
}
