ghost use Rattle.std.specs.Prelude.{◌≡◌, ◌<◌, ◌≤◌, ◌^◌, ◌⊎◌, IfErr, IfOk, length};
ghost use Rattle.ga_frame.specs.Frame.{words_of};
ghost use Rattle.ga_frame.specs.declared.error.FrameError.TheVariants.{Memory, TooLong};

use crate::error::FrameError;
use ga_word::Word18;
use std::alloc::Global;

/// The words of a frame: its completion, its transfer address, how many words it has, and these.
/// The first two are not checked. More than 3FFFF words are refused as [`FrameError::TooLong`], and
/// [`FrameError::Memory`] comes only when out of memory.
pub fn write_frame(
    alloc: Global,
    completion: Word18,
    transfer: Word18,
    words: &[Word18],
) -> Result<Vec<Word18>, FrameError>
    ensures words { IfOk result (λ frame. frame.items ≡ words_of
        (record { completion = completion; transfer = transfer; words = words.now })) }
    ensures short { IfOk result (λ frame. length words.now < 2 ^ 18) }
    ensures long { IfErr result (λ error. (error ≡ Memory)
        ⊎ ((error ≡ TooLong) × (2 ^ 18 ≤ length words.now))) }
{
    let Some(count) = u32::try_from(words.len()).ok().and_then(Word18::new) else {
        return Err(FrameError::TooLong);
    };
    let mut frame = Vec::with_capacity(alloc, words.len() + 3)?;
    frame.push(completion)?;
    frame.push(transfer)?;
    frame.push(count)?;
    frame.extend_from_slice(words)?;
    Ok(frame)
}
