ghost use Rattle.std.specs.Prelude.{◌≡◌, Some};
ghost use Rattle.ga_lint.specs.Warning.{kind_name, warning_at, warning_text};
ghost use Rattle.ga_source.specs.Token.{place_of};

use ga_place::Node;
use ga_source::Place;
use std::fmt;

/// What a warning is about. (The rules are this project's own: profile.)
#[derive(Clone, Copy, Debug, PartialEq, Eq)]
pub enum WarningKind {
    /// A word runs its `@p`, `!p` or `push` again in each round of its `unext`.
    UnextRepeats,
    /// A word with an `unext` begins where the packing of the items put it.
    SplitLoop,
    /// The code of a node can be left behind its last word.
    RunsOff,
    /// The data stack loses a word that the node pushed since its entry.
    PushesTooMany,
    /// An opcode takes a word from the data stack that the node didn't push since its entry.
    PopsTooMany,
    /// A label that no item of its node names.
    UnusedLabel,
    /// No path from the entry reaches a word of code.
    Unreachable,
    /// A word is written to several ports.
    SeveralPorts,
    /// A `;` returns, but nothing was called or pushed since the entry.
    ReturnsNowhere,
    /// A destination leaves extended mode in a loop.
    LeavesExtended,
    /// A destination is in memory, where the node has no word to run.
    OverMemory,
    /// A destination is a number or data of the node.
    IntoData,
    /// The node begins at a number or at data.
    BeginsInData,
    /// An `@b` reads io, since no `b!` ran before it.
    ReadsIo,
    /// A word is written to the port of a side at which the node has no neighbour.
    EdgePort,
}

impl WarningKind {
    /// The name, as `UnextRepeats`.
    pub fn name(self) -> &'static str
        ensures { result.now ≡ kind_name self }
    {
        match self {
            WarningKind::UnextRepeats => "UnextRepeats",
            WarningKind::SplitLoop => "SplitLoop",
            WarningKind::RunsOff => "RunsOff",
            WarningKind::PushesTooMany => "PushesTooMany",
            WarningKind::PopsTooMany => "PopsTooMany",
            WarningKind::UnusedLabel => "UnusedLabel",
            WarningKind::Unreachable => "Unreachable",
            WarningKind::SeveralPorts => "SeveralPorts",
            WarningKind::ReturnsNowhere => "ReturnsNowhere",
            WarningKind::LeavesExtended => "LeavesExtended",
            WarningKind::OverMemory => "OverMemory",
            WarningKind::IntoData => "IntoData",
            WarningKind::BeginsInData => "BeginsInData",
            WarningKind::ReadsIo => "ReadsIo",
            WarningKind::EdgePort => "EdgePort",
        }
    }
}

/// Writes the name, as `UnextRepeats`.
impl fmt::Display for WarningKind {
    ghost output = { λ kind. Some (kind_name kind) };

    fn fmt<W: fmt::Write>(&self, f: &mut fmt::Formatter<W>) -> fmt::Result {
        f.write_str(self.name())
    }
}

/// A warning about a node, at the place of the first item of a word, or of a label.
#[derive(Clone, Copy, Debug, PartialEq, Eq)]
pub struct Warning {
    pub node: Node,
    /// The line in the text, from 1. Lines end by LF.
    pub line: usize,
    /// The column, from 1. Columns count characters, the Unicode scalar values.
    pub column: usize,
    pub kind: WarningKind,
}

impl Warning {
    /// A warning about a node at a place.
    pub(crate) fn new(node: Node, place: Place, kind: WarningKind) -> Self
        ensures { result ≡ warning_at node (place_of place) kind }
    {
        Warning {
            node,
            line: place.line,
            column: place.column,
            kind,
        }
    }
}

/// Writes the node, the place and the kind, as `708 3:5 UnextRepeats`.
impl fmt::Display for Warning {
    ghost output = { λ warning. Some (warning_text warning) };

    fn fmt<W: fmt::Write>(&self, f: &mut fmt::Formatter<W>) -> fmt::Result {
        let node = self.node;
        let line = self.line;
        let column = self.column;
        let kind = self.kind;
        write!(f, "{node} {line}:{column} {kind}")
    }
}
