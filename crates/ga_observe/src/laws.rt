//! Laws of the definitions. They do nothing when run.
ghost use Rattle.ga_observe.specs.Laws.{EventsAreNumbered, StepsAreMoves, TurnsAreNumbered, TurnsGoOn};

/// The steps of a run are its moves: one for each, by the same node, in the same order. Numbers
/// change no events, of one turn or of several. And the steps of one turn more are those of the
/// turns before it, and then its own.
pub fn steps()
    ensures moves { StepsAreMoves }
    ensures events { EventsAreNumbered }
    ensures turns { TurnsAreNumbered }
    ensures next { TurnsGoOn }
{}
