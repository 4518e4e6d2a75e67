//! Laws of the definitions. They do nothing when run.
ghost use Rattle.ga_profile.specs.Faster.{FasterIsTries, NoneIsShorter, ShorterIsFewest};

/// Turns in which a node is twice as fast are tries of the same chip. So `laws::no_race` of
/// `ga_race` says when all runs agree with them on their common steps. The length that a profile
/// shows (`Profile::shorter`) is that of the fewest such turns, from the beginning of the window
/// on, behind which each node has done its work of the run, spins aside; and it is less than that
/// of the window. If it shows none, no fewer turns than those of the window do.
pub fn faster()
    ensures tries { FasterIsTries }
    ensures fewest { ShorterIsFewest }
    ensures none { NoneIsShorter }
{}
