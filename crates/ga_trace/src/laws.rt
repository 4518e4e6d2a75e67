//! Laws of the definitions. They do nothing when run.
ghost use Rattle.ga_trace.specs.Laws.{FirstIsShown, FirstStepsAreShown, NoneIsShown, SpinsStayKnown};

/// A trace of K steps of a node shows its first K steps, as an observer of all turns sees them:
/// some turns are made, and the text has the lines of all steps that the node makes in them, in
/// order. These are K, or else fewer, and then the last line says why.
pub fn first_steps()
    ensures { FirstStepsAreShown }
{}

/// A watch stops at the first change. It shows the first turn that changes what is watched, or that
/// makes it the value that is waited for, and makes no turn behind that one. If none of 1,000,000
/// turns does, its text is that there is no change.
pub fn first_change()
    ensures shown { FirstIsShown }
    ensures none { NoneIsShown }
{}

/// What is known of the spins of a chip's nodes is still so after a turn of the chip.
pub fn known_spins()
    ensures { SpinsStayKnown }
{}
