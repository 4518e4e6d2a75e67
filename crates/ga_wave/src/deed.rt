//! What a node is about to do, and what it did in a turn.
ghost use Rattle.std.specs.Prelude.{◌≡◌};
ghost use Rattle.ga_wave.specs.Deed as spec;

use ga_node::Need;
use ga_place::Side;
use ga_word::Word18;

/// What a node did in a turn.
#[derive(Clone, Copy)]
pub(crate) enum Did {
    /// Its own work.
    Works,
    /// Its own work, by which it goes round for ever.
    Spins,
    /// It posted a word at a side.
    Posts(Side),
    /// It took a word at a side.
    Takes(Side),
    /// It saw that its word at a side was read.
    SeesRead(Side),
    /// Its loader took a word of its stream.
    TakesInput,
    /// It waited for a word.
    AwaitsWord,
    /// It waited for its word to be read.
    AwaitsReader,
    /// It waited for its stream.
    AwaitsInput,
    /// It was held at a breakpoint.
    Held,
    /// It has stopped.
    Stopped,
}

/// What a node is about to do.
#[derive(Clone, Copy)]
pub(crate) enum Intent {
    /// Its own work.
    Work,
    /// To take a word: at this side, or at the side that a try names.
    Take(Option<Side>),
    /// To post this word at this side.
    Post(Side, Word18),
    /// To see whether its word at this side was read.
    Check(Side),
    /// To take the next word of its stream.
    Input,
    /// Nothing any more.
    Stop,
}

/// What a node of this need is about to do.
pub(crate) fn intent_of(need: &Need) -> Intent
    ensures { result ≡ spec.intent_of need.now }
{
    match *need {
        Need::Own => Intent::Work,
        Need::Take(sides) => Intent::Take(sides.only()),
        Need::Post(side, word) => Intent::Post(side, word),
        Need::Check(side) => Intent::Check(side),
        Need::Input => Intent::Input,
        Need::Stopped(_) => Intent::Stop,
    }
}

/// What a node did by a step in a turn with a side.
pub(crate) fn step_did(side: Side, intent: Intent) -> Did
    ensures { result ≡ spec.step_did side intent }
{
    match intent {
        Intent::Work => Did::Works,
        Intent::Take(own) => Did::Takes(own.unwrap_or(side)),
        Intent::Post(at, _) => Did::Posts(at),
        Intent::Check(at) => Did::SeesRead(at),
        Intent::Input => Did::TakesInput,
        Intent::Stop => Did::Stopped,
    }
}

/// What a node did that made no step, if it wasn't held.
pub(crate) fn rest_did(intent: Intent) -> Did
    ensures { result ≡ spec.rest_did intent }
{
    match intent {
        Intent::Work => Did::Held,
        Intent::Take(_) => Did::AwaitsWord,
        Intent::Post(_, _) | Intent::Check(_) => Did::AwaitsReader,
        Intent::Input => Did::AwaitsInput,
        Intent::Stop => Did::Stopped,
    }
}

/// Its name.
pub(crate) fn did_name(did: Did) -> &'static str
    ensures { result.now ≡ spec.did_text did }
{
    match did {
        Did::Works => "works",
        Did::Spins => "spins",
        Did::Posts(side) => post_name(side),
        Did::Takes(side) => take_name(side),
        Did::SeesRead(side) => read_name(side),
        Did::TakesInput => "takes_input",
        Did::AwaitsWord => "awaits_word",
        Did::AwaitsReader => "awaits_reader",
        Did::AwaitsInput => "awaits_input",
        Did::Held => "held",
        Did::Stopped => "stopped",
    }
}

fn post_name(side: Side) -> &'static str
    ensures { result.now ≡ spec.post_text side }
{
    match side {
        Side::Right => "posts_right",
        Side::Down => "posts_down",
        Side::Left => "posts_left",
        Side::Up => "posts_up",
    }
}

fn take_name(side: Side) -> &'static str
    ensures { result.now ≡ spec.take_text side }
{
    match side {
        Side::Right => "takes_right",
        Side::Down => "takes_down",
        Side::Left => "takes_left",
        Side::Up => "takes_up",
    }
}

fn read_name(side: Side) -> &'static str
    ensures { result.now ≡ spec.read_text side }
{
    match side {
        Side::Right => "sees_right_read",
        Side::Down => "sees_down_read",
        Side::Left => "sees_left_read",
        Side::Up => "sees_up_read",
    }
}
