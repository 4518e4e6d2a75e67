ghost use Rattle.std.specs.Prelude.{◌≡◌, ◌+◌, ◌++◌, ◌≤◌, ◌^◌, ◌⊎◌, ℕ, List, [], IfErr, IfOk, Ok, Err, drop, false, if◌then◌else◌, length, map};
ghost use Rattle.ga_frame.specs.Frame.{AreFrames, FrameView, HasNoFrames, IsFirstFault, frame_view};
ghost use Rattle.ga_frame.specs.Feed.{HasRead, cut_at};
ghost use Rattle.ga_frame.specs.declared.error.FrameError.TheVariants.{Counted};

use crate::error::FrameError;
use crate::frame::Frame;
use crate::parsing::take_frames;
use ga_word::Word18;
use std::alloc::Global;
use std::marker::Model;

/// Reads the frames of a stream that comes in pieces. It keeps the words of the frame that isn't
/// whole yet, and counts the words of the stream from 0.
#[derive(Drop)]
pub struct FrameFeed {
    alloc: Global,
    // The number of words of the frames that were handed out.
    at: u64,
    // The words behind them.
    begun: Vec<Word18>,
    // Whether the last frame was handed out.
    ended: bool,
}

impl Model for FrameFeed {
    ghost use Rattle.std.specs.Prelude.{◌+◌, ◌<◌, ◌^◌, length};
    ghost use Rattle.ga_frame.specs.Feed.{FeedView};

    ghost Value = { FeedView };

    ghost view = { λ feed. record {
      at = feed.at;
      begun = feed.begun.items;
      ended = feed.ended;
    } };

    ghost invariant = { λ feed. feed.at + length feed.begun.items < 2 ^ 64 };
}

impl FrameFeed {
    /// A reader that has read no word. It allocates nothing.
    pub fn new(alloc: Global) -> Self
        ensures value { result ≡ record { at = 0; begun = []; ended = false } }
        // of no words it has handed out no frame
        ensures nothing { HasRead [] [] result }
    {
        FrameFeed {
            alloc,
            at: 0,
            begun: Vec::new(alloc),
            ended: false,
        }
    }

    /// Returns the frames that this piece makes whole. A frame is refused as
    /// [`FrameError::BadAddress`] as soon as its first three words are there, with the number of
    /// the first of them. A word behind the last frame is refused at once as
    /// [`FrameError::AfterEnd`], with its own number. Words count from 0 over all pieces. A piece
    /// that would bring the number of words over 2^64 - 1 is refused as [`FrameError::Counted`]
    /// before all else, and one that runs out of memory as [`FrameError::Memory`]. After a refusal
    /// the reader is as before the call. (Frames are this project's own: profile.)
    pub fn feed(&mut self, piece: &[Word18]) -> Result<Vec<Frame>, FrameError>
        // with the frames handed out before they are the frames of all words up to here
        ensures frames { IfOk result (λ more. (words : List ℕ) (frames : List FrameView)
            → HasRead words frames self.old
            → HasRead (words ++ piece.now) (frames ++ map frame_view more.items) self.new) }
        // each fault but `Memory` and `Counted` is the first one of the stream, whatever follows
        ensures fault { IfErr result (λ error. (error ≡ Counted)
            ⊎ ((words : List ℕ) (frames : List FrameView) (more : List ℕ)
            → HasRead words frames self.old → IsFirstFault (words ++ (piece.now ++ more)) error)) }
        ensures counted { IfErr result (λ error. error ≡ Counted
            → 2 ^ 64 ≤ self.old.at + length self.old.begun + length piece.now) }
        ensures too_many { 2 ^ 64 ≤ self.old.at + length self.old.begun + length piece.now
            → result ≡ Err Counted }
        ensures unchanged { IfErr result (λ error. self.new ≡ self.old) }
    {
        let left = u64::MAX - self.at - self.begun.len() as u64;
        if piece.len() as u64 > left {
            return Err(FrameError::Counted);
        }
        if self.ended && !piece.is_empty() {
            return Err(FrameError::AfterEnd(self.at));
        }
        if self.ended {
            return Ok(Vec::new(self.alloc));
        }
        let kept = self.begun.len();
        self.begun.extend_from_slice(piece)?;
        match take_frames(self.alloc, self.at, self.begun.as_slice()) {
            Ok(taken) => {
                drop_front(&mut self.begun, taken.count);
                self.at += taken.count as u64;
                self.ended = taken.ended;
                Ok(taken.frames)
            }
            Err(error) => {
                self.begun.truncate(kept);
                Err(error)
            }
        }
    }

    /// Ends the stream. If its last frame wasn't handed out, the frame behind those that were is
    /// cut: [`FrameError::CutHeader`] if fewer than three of its words came, else
    /// [`FrameError::CutBody`], with the number of its first word. It allocates nothing. (Frames
    /// are this project's own: profile.)
    pub fn finish(self) -> Result<(), FrameError>
        ensures exact { result
            ≡ (if self.ended then Ok tt else Err (cut_at self.at (length self.begun))) }
        // the frames that were handed out are those of the words
        ensures frames { IfOk result (λ done. (words : List ℕ) (frames : List FrameView)
            → HasRead words frames self → AreFrames words frames) }
        // and no others are
        ensures only { IfOk result (λ done. (words : List ℕ) (frames other : List FrameView)
            → HasRead words frames self → AreFrames words other → other ≡ frames) }
        // a fault is the first one of the words
        ensures fault { IfErr result (λ error. (words : List ℕ) (frames : List FrameView)
            → HasRead words frames self → IsFirstFault words error) }
        // and the words are no frames
        ensures none { IfErr result (λ error. (words : List ℕ) (frames : List FrameView)
            → HasRead words frames self → HasNoFrames words error) }
    {
        if self.ended {
            Ok(())
        } else if self.begun.len() < 3 {
            Err(FrameError::CutHeader(self.at))
        } else {
            Err(FrameError::CutBody(self.at))
        }
    }
}

/// Removes the first `count` words.
fn drop_front(words: &mut Vec<Word18>, count: usize)
    requires { count ≤ length words.old.items }
    ensures { words.new.items ≡ drop count words.old.items }
{
    words.drain(..count);
}
