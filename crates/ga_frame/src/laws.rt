//! Laws of the definitions. They do nothing when run.
ghost use Rattle.std.specs.Prelude.{◌≡◌, ◌≢◌, ℕ, List};
ghost use Rattle.ga_frame.specs.Frame.{AreFrames, FrameView, HasNoFrames, IsFirstFault};
ghost use Rattle.ga_frame.specs.declared.error.FrameError.{FrameError};
ghost use Rattle.ga_frame.specs.declared.error.FrameError.TheVariants.{Memory};

/// Words are the frames of one list, or have one first fault, and not both. So however a stream is
/// cut into pieces, a reader of pieces hands out the frames that [`crate::read_frames`] reads in
/// the whole, or finds the same fault.
pub fn one_reading()
    ensures frames { (words : List ℕ) (frames other : List FrameView) → AreFrames words frames
        → AreFrames words other → other ≡ frames }
    ensures fault { (words : List ℕ) (fault other : FrameError) → fault ≢ Memory → other ≢ Memory
        → IsFirstFault words fault → IsFirstFault words other → other ≡ fault }
    ensures apart { (words : List ℕ) (fault : FrameError) → IsFirstFault words fault
        → HasNoFrames words fault }
{}
