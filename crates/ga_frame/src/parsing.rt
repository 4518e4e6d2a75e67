//! Takes frames off the front of words.
ghost use Rattle.std.specs.Prelude.{◌≡◌, ◌≢◌, ◌+◌, ◌<◌, ◌≤◌, ◌^◌, ◌⊎◌, IfErr, IfOk, IfSome, None, Some, drop, length, map, true};
ghost use Rattle.ga_place.specs.Address.{where_is};
ghost use Rattle.ga_frame.specs.Frame.{fault_at, has_addresses, takes_words, frame_view};
ghost use Rattle.ga_frame.specs.Feed.{HasRead, is_cut};
ghost use Rattle.ga_frame.specs.inner.Taking.{BeginsWith, HasFaultBehind};

use crate::error::FrameError;
use crate::frame::{Frame, MORE};
use ga_place::{Where, locate};
use ga_word::Word18;
use std::alloc::Global;

/// Frames off the front of words.
#[derive(Drop)]
pub(crate) struct Taken {
    pub(crate) frames: Vec<Frame>,
    /// How many words they have.
    pub(crate) count: usize,
    /// Whether the last one is among them.
    pub(crate) ended: bool,
}

/// The frames that are whole off the front of these words, the first of which is the word of a
/// stream with this number.
pub(crate) fn take_frames(alloc: Global, at: u64, words: &[Word18]) -> Result<Taken, FrameError>
    requires { at + length words.now < 2 ^ 64 }
    ensures within { IfOk result (λ taken. taken.count ≤ length words.now) }
    ensures frames { IfOk result (λ taken. HasRead words.now (map frame_view taken.frames.items)
        (record { at = taken.count; begun = drop taken.count words.now; ended = taken.ended })) }
    ensures fault { IfErr result (λ error. HasFaultBehind at words.now error) }
    ensures counts { IfErr result (λ error. error ≢ FrameError.Counted) }
{
    let mut frames = Vec::new(alloc);
    let mut rest = words;
    loop {
        let count = words.len() - rest.len();
        let Some((frame, behind)) = first_frame(alloc, at + count as u64, rest)? else {
            return Ok(Taken {
                frames,
                count,
                ended: false,
            });
        };
        let is_last = frame.completion.get() != MORE;
        frames.push(frame)?;
        rest = behind;
        if is_last {
            break;
        }
    }
    if rest.is_empty() {
        Ok(Taken {
            frames,
            count: words.len(),
            ended: true,
        })
    } else {
        Err(FrameError::AfterEnd(at + (words.len() - rest.len()) as u64))
    }
}

/// The frame that some words begin with, and the words behind it; or none, if it isn't whole yet.
/// The first word has this number in its stream.
fn first_frame(
    alloc: Global,
    at: u64,
    words: &[Word18],
) -> Result<Option<(Frame, &[Word18])>, FrameError>
    ensures frame { IfOk result (λ first. IfSome first (λ first.
        BeginsWith words.now (frame_view first.0) first.1.now)) }
    ensures cut { IfOk result (λ first. first ≡ None → is_cut words.now ≡ true) }
    ensures fault { IfErr result (λ error. (error ≡ FrameError.Memory)
        ⊎ ((error ≡ FrameError.BadAddress at) × (fault_at at words.now ≡ Some error))) }
{
    let [completion, transfer, count, body @ ..] = words else {
        return Ok(None);
    };
    if !has_addresses(*completion, *transfer) {
        return Err(FrameError::BadAddress(at));
    }
    let count = count.get() as usize;
    if body.len() < count {
        return Ok(None);
    }
    let (body, behind) = body.split_at(count);
    let frame = Frame {
        completion: *completion,
        transfer: *transfer,
        words: Vec::from_slice(alloc, body)?,
    };
    Ok(Some((frame, behind)))
}

/// Whether a frame may have this completion and this transfer address.
fn has_addresses(completion: Word18, transfer: Word18) -> bool
    ensures { result ≡ has_addresses completion transfer }
{
    completion.get() < 0x400 && transfer.get() < 0x200 && takes_words(transfer)
}

/// Whether words may go to an address: RAM, io, or the port of one side.
fn takes_words(address: Word18) -> bool
    requires { address < 0x200 }
    ensures { result ≡ takes_words (where_is address) }
{
    match locate(address.get() as u16) {
        Where::Ram(_) | Where::Io => true,
        Where::Ports(sides) => sides.only().is_some(),
        Where::Rom(_) | Where::Unmapped => false,
    }
}
