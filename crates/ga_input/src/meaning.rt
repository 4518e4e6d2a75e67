ghost use Rattle.std.specs.Prelude.{◌≡◌, ◌==◌, ◌-◌, IfOk, length, slice_index};
ghost use Rattle.ga_input.specs.Meaning.{head_meaning, profile_meaning, words_meaning};

use crate::fault::WordsFault;
use ga_debug::ReplayError;
use ga_explain::meaning;
use ga_messages::whole_line;
use std::alloc::{AllocError, Global};

/// What a fault of a text, which is a replay text or has the head of a session, means, in one line.
/// Fails only when out of memory.
#[tactic(auto, unfolding(crate::specs::Meaning::head_meaning))]
pub fn head_meaning(
    alloc: Global,
    text: &str,
    error: &ReplayError,
) -> Result<&'static str, AllocError>
    ensures { IfOk result (λ line. line.now ≡ head_meaning text.now error.now) }
{
    match error {
        ReplayError::BadProfile => Ok(profile_meaning(text)),
        ReplayError::BadRoute => meaning(alloc, "BadRoute"),
        ReplayError::NoGo => meaning(alloc, "NoGo"),
        ReplayError::Route(_) => meaning(alloc, "Route"),
        ReplayError::Tree(_) => meaning(alloc, "Tree"),
        ReplayError::Boot(_) => meaning(alloc, "Boot"),
        ReplayError::Bad(_, error) => meaning(alloc, error.name()),
        ReplayError::Differs(_) => meaning(alloc, "differs"),
        _ => Ok(""),
    }
}

/// The meaning of a first line that isn't the one of the profile, also if the difference can't be
/// seen.
#[tactic(auto, unfolding(crate::specs::Meaning::profile_meaning))]
fn profile_meaning(text: &str) -> &'static str
    ensures { result.now ≡ profile_meaning text.now }
{
    if text.starts_with("\u{FEFF}") {
        MARK_BEFORE_PROFILE
    } else if ends_by_cr(whole_line(text, 1)) {
        CR_BEHIND_PROFILE
    } else {
        BAD_PROFILE
    }
}

fn ends_by_cr(line: &str) -> bool
    ensures { result ≡ (slice_index line.now (length line.now - 1) == 13) }
{
    line.as_bytes().last() == Some(&b'\r')
}

/// What a fault of words means, in one line.
pub fn words_meaning(fault: &WordsFault) -> &'static str
    ensures { result.now ≡ words_meaning fault.now }
{
    match fault {
        WordsFault::BadWord(_) => "no word of five hex digits, at most 3FFFF",
        WordsFault::Empty => "a text without a word",
        WordsFault::TooLong => "the 65th word: a node has room for 64",
        WordsFault::BadCode => "",
    }
}

const BAD_PROFILE: &str = "the first line isn't 'profile 2'";

const MARK_BEFORE_PROFILE: &str =
    "the first line isn't 'profile 2': a byte order mark stands in front of it";

const CR_BEHIND_PROFILE: &str = "the first line isn't 'profile 2': a CR stands at its end";
