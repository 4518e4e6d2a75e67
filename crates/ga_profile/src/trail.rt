//! How many turns each kind of step has on a path.
ghost use Rattle.std.specs.Prelude.{◌≡◌, ◌<◌, length, get_or, set};
ghost use Rattle.ga_profile.specs.Path as spec;
ghost use Rattle.ga_profile.specs.inner.Trails.{NO_TRAIL, lengthened};

/// How many kinds of steps there are.
const KINDS: usize = 715;

/// How many turns each kind of step has on a path.
#[derive(Clone, Copy)]
pub(crate) struct Trail {
    /// The turn of the last step.
    pub(crate) last: Option<u64>,
    pub(crate) turns: [u64; KINDS],
}

/// A path of no steps.
pub(crate) fn no_trail() -> Trail
    ensures { result ≡ NO_TRAIL }
{
    Trail {
        last: None,
        turns: [0; KINDS],
    }
}

/// How many turns from `from` on lie behind the one of the last step, up to a turn.
fn turns_up_to(from: u64, last: Option<u64>, turn: u64) -> u64
    ensures { result ≡ spec.turns_up_to from last turn }
{
    let in_window = turn.saturating_add(1).saturating_sub(from);
    match last {
        Some(last) => in_window.min(turn.saturating_sub(last)),
        None => in_window,
    }
}

/// Adds a step to a path, by its turn and its kind.
pub(crate) fn lengthen(trail: &mut Trail, from: u64, turn: u64, kind: usize)
    requires { kind < 715 }
    ensures { trail.new ≡ lengthened from trail.old turn kind }
{
    let more = turns_up_to(from, trail.last, turn);
    trail.turns[kind] = trail.turns[kind].saturating_add(more);
    trail.last = Some(turn);
}
