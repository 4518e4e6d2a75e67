//! The row of a command.
ghost use Rattle.std.specs.Prelude.{◌≡◌};
ghost use Rattle.ga_debug.specs.Row.{is_seen_by};

/// What a word behind the name of a command has to be.
#[derive(Clone, Copy)]
pub(crate) enum Shape {
    /// A node's name, three digits.
    Node,
    /// An address of that node: three hex digits, or a label of its image.
    Address,
    /// The first letter of a side.
    Side,
    /// A count, 0 to 1000000.
    Count,
    /// A count, or no word, for 1000000.
    CountIf,
    /// A count, or no word, for 1.
    OneIf,
    /// How often a node passes an address: `x` and a count; or no such word, for 0.
    PassesIf,
    /// An address of memory, or no word.
    AddressIf,
    /// An address of memory and a count of words from there on, which may be left out; or no word,
    /// for all words.
    RangeIf,
    /// What the node shows that has a value.
    What,
    /// Up to eight values of that.
    Values,
    /// `=` and a value of that, or no word.
    GoalIf,
}

/// Which texts have a command: those of one scope have the commands of the scopes before it, too.
#[derive(Clone, Copy)]
pub(crate) enum Scope {
    Replays,
    Sessions,
    Transcripts,
}

/// What a replay states of a command, behind `=`.
#[derive(Clone, Copy)]
pub(crate) enum States {
    Nothing,
    /// The outcome of a try.
    Outcome,
    /// How many steps turns made.
    Steps,
}

/// The row of a command: which words follow its name, which texts have it, and what a replay states
/// of it. The names themselves are in `action_named`, `follow_named` and `view_named`.
#[derive(Clone, Copy)]
pub(crate) struct Row {
    pub(crate) shapes: &'static [Shape],
    pub(crate) scope: Scope,
    pub(crate) states: States,
}

/// Whether texts of a scope have the commands of another.
pub(crate) fn is_seen_by(scope: Scope, first: Scope) -> bool
    ensures { result ≡ is_seen_by scope first }
{
    match first {
        Scope::Replays => true,
        Scope::Sessions => !matches!(scope, Scope::Replays),
        Scope::Transcripts => matches!(scope, Scope::Transcripts),
    }
}
