//! What a node does.
ghost use Rattle.std.specs.Prelude.{◌≡◌};
ghost use Rattle.ga_report.specs.Kind as spec;
ghost use Rattle.ga_report.specs.Kind.{class_of, words_of};

/// What a node does in most turns of a column, or at the end of a window.
#[derive(Clone, Copy, Debug)]
pub enum Kind {
    /// It moves.
    Works,
    AwaitsWord,
    /// It waits for its word to be read.
    AwaitsReader,
    /// It moves, and nothing but a jump to itself is left to do.
    Spins,
    Stopped,
    /// It moves before it began.
    Boots,
    /// It waits for code or for a word of its stream, or hasn't started.
    Idle,
}

/// All kinds, in the order of the key.
pub(crate) const KINDS: [Kind; 7] = [
    Kind::Works,
    Kind::AwaitsWord,
    Kind::AwaitsReader,
    Kind::Spins,
    Kind::Stopped,
    Kind::Boots,
    Kind::Idle,
];

/// Whether two kinds are one.
pub(crate) fn is_same(one: Kind, other: Kind) -> bool
    ensures { result ≡ spec.is_same one other }
{
    matches!(
        (one, other),
        (Kind::Works, Kind::Works)
            | (Kind::AwaitsWord, Kind::AwaitsWord)
            | (Kind::AwaitsReader, Kind::AwaitsReader)
            | (Kind::Spins, Kind::Spins)
            | (Kind::Stopped, Kind::Stopped)
            | (Kind::Boots, Kind::Boots)
            | (Kind::Idle, Kind::Idle)
    )
}

/// The class of a kind in the style sheet.
pub(crate) fn class_of(kind: Kind) -> &'static str
    ensures { result.now ≡ class_of kind }
{
    match kind {
        Kind::Works => "works",
        Kind::AwaitsWord => "word",
        Kind::AwaitsReader => "reader",
        Kind::Spins => "spins",
        Kind::Stopped => "stopped",
        Kind::Boots => "boots",
        Kind::Idle => "idle",
    }
}

/// A kind in words.
pub(crate) fn words_of(kind: Kind) -> &'static str
    ensures { result.now ≡ words_of kind }
{
    match kind {
        Kind::Works => "works",
        Kind::AwaitsWord => "waits for a word",
        Kind::AwaitsReader => "waits for its word to be read",
        Kind::Spins => "spins",
        Kind::Stopped => "stopped",
        Kind::Boots => "boots",
        Kind::Idle => "idle",
    }
}
