ghost use Rattle.std.specs.Prelude.{◌≡◌};
ghost use Rattle.ga_word.specs.declared.text.WordsError.TheVariants as words;
ghost use Rattle.ga_path.specs.declared.error.BootError.TheVariants as boot;
ghost use Rattle.ga_path.specs.declared.error.NamesError.TheVariants as names;
ghost use Rattle.ga_input.specs.Fault.{fault_of_replay, fault_of_route, fault_of_text, fault_of_tree};
ghost use Rattle.ga_input.specs.declared.fault.RouteFault.TheVariants.{BadRoute};
ghost use Rattle.ga_input.specs.declared.fault.ServeError.TheVariants.{Boot, Memory, Plan, Route, Words};
ghost use Rattle.ga_input.specs.declared.fault.WordsFault.TheVariants.{BadWord};

use ga_asm::{AsmError, TextError};
use ga_debug::ReplayError;
use ga_expand::ExpandError;
use ga_group::PlanError;
use ga_include::IncludeFaultKind;
use ga_messages::ShownText;
use ga_path::{BootError, NamesError, RouteError, TreeError};
use ga_place::Node;
use ga_source::SourceError;
use ga_transcript::Unmet;
use ga_word::WordsError;
use std::alloc::{AllocError, AllocFailed};
use std::fmt;
use thiserror::Error;

/// Why an input was refused before it was read as a job's own.
#[derive(Debug, PartialEq, Eq, Drop, Error)]
pub enum InputFault {
    /// It has more bytes than are accepted.
    #[error("TooLong")]
    TooLong,
    /// It is not UTF-8.
    #[error("BadText")]
    BadText,
    /// No file has this name.
    #[error("NoFile")]
    NoFile,
    /// The name is that of a folder.
    #[error("Folder")]
    Folder,
    /// The name is that of a pipe or a device, which can't be replaced.
    #[error("NotAFile")]
    NotAFile,
    /// It can't be opened or read.
    #[error("read")]
    Read,
    /// The name of a source leads out of the folder of the file that names it.
    #[error("Outside")]
    Outside,
}

impl InputFault {
    ghost use Rattle.std.specs.Prelude.{◌≡◌};
    ghost use Rattle.ga_input.specs.Fault.{input_name};

    /// The fault's name, as `explain` has it.
    fn name(&self) -> &'static str
        ensures { result.now ≡ input_name self.now }
    {
        match self {
            InputFault::TooLong => "TooLong",
            InputFault::BadText => "BadText",
            InputFault::NoFile => "NoFile",
            InputFault::Folder => "Folder",
            InputFault::NotAFile => "NotAFile",
            InputFault::Read => "read",
            InputFault::Outside => "Outside",
        }
    }
}

/// Why an include line was refused.
#[derive(Debug, PartialEq, Eq, Drop)]
pub enum IncludeRefusal {
    /// The line is malformed, or its file is one too many, is too long, or includes itself.
    Line(IncludeFaultKind),
    /// The file that it names was refused.
    File(InputFault),
}

impl IncludeRefusal {
    ghost use Rattle.std.specs.Prelude.{◌≡◌};
    ghost use Rattle.ga_input.specs.Fault.{refusal_name};

    /// The refusal's name, as `explain` has it.
    pub fn name(&self) -> &'static str
        ensures { result.now ≡ refusal_name self.now }
    {
        match self {
            IncludeRefusal::Line(kind) => kind.name(),
            IncludeRefusal::File(fault) => fault.name(),
        }
    }
}

/// Writes the name.
impl fmt::Display for IncludeRefusal {
    ghost use Rattle.std.specs.Prelude.{Some};
    ghost use Rattle.ga_input.specs.Fault.{refusal_name};

    ghost output = { λ refusal. Some (refusal_name refusal) };

    fn fmt<W: fmt::Write>(&self, f: &mut fmt::Formatter<W>) -> fmt::Result {
        f.write_str(self.name())
    }
}

/// An include line that was refused: its number, from 1, the column of its `include`, from 1, and
/// why.
#[derive(Debug, PartialEq, Eq, Drop, Error)]
#[error("{line}:{column} {refusal}")]
pub struct IncludeFault {
    pub line: usize,
    pub column: usize,
    pub refusal: IncludeRefusal,
}

/// Why an output isn't written.
#[derive(Debug, PartialEq, Eq, Drop, Error)]
pub enum OutputFault {
    /// It would have more bytes than it may.
    #[error("TooLong")]
    TooLong,
}

/// Why an input was refused as words.
#[derive(Debug, PartialEq, Eq, Drop, Error)]
pub enum WordsFault {
    /// The token at this index, counted from 0, writes no word.
    #[error("{0} BadWord")]
    BadWord(usize),
    /// There is no word.
    #[error("Empty")]
    Empty,
    /// There are more words than a node's memory holds.
    #[error("TooLong")]
    TooLong,
    /// The number of words of code is greater than that of the words.
    #[error("BadCode")]
    BadCode,
}

/// Why a ROUTE was refused.
#[derive(Debug, PartialEq, Eq, Drop, Error)]
pub enum RouteFault {
    /// It isn't routes with `/` between them, each the names of its nodes with commas between them.
    #[error("BadRoute")]
    BadRoute,
    /// The nodes are no route.
    #[error("{0}")]
    Nodes(RouteError),
}

/// The first fault of a text that is shown with a part of the text. Lines of a transcript are
/// counted from its first one.
#[derive(Debug, PartialEq, Eq, Drop, Error)]
pub enum TextFault {
    #[error("source {0}")]
    Source(SourceError),
    #[error("asm {0}")]
    Asm(AsmError),
    /// The fault of a text of the larger language.
    #[error("expand {0}")]
    Expand(ExpandError),
    /// An include line that was refused.
    #[error("include {0}")]
    Include(IncludeFault),
    /// The fault of a source in a file with a name of its own.
    #[error("source {0}:{1}")]
    SourceOf(ShownText, SourceError),
    /// The fault of the program of such a source.
    #[error("asm {node} {0}:{line}:{column} {kind}", node = .1.node, line = .1.line, column = .1.column, kind = .1.kind)]
    AsmOf(ShownText, AsmError),
    #[error("replay {0}")]
    Replay(ReplayError),
    /// A line of a reply comes before all commands of a transcript.
    #[error("transcript line {0} EarlyReply")]
    EarlyReply(u64),
    /// The command of this line of a transcript has another reply than the lines behind it.
    #[error("check differs {0}")]
    Differs(u64),
    /// Replies of a transcript to expectations that aren't met.
    #[error("check: {0}")]
    Failed(Unmet),
}

/// Why a job was not served. Its `Display` is the text that the program prints.
#[derive(Debug, PartialEq, Eq, Drop, Error)]
pub enum ServeError {
    #[error("input {0}")]
    Input(InputFault),
    /// The same of a file that another file names.
    #[error("input {0} {1}")]
    InputOf(ShownText, InputFault),
    #[error("words {0}")]
    Words(WordsFault),
    #[error("source {0}")]
    Source(SourceError),
    #[error("asm {0}")]
    Asm(AsmError),
    #[error("route {0}")]
    Route(RouteFault),
    #[error("tree {0}")]
    Tree(TreeError),
    #[error("boot {0}")]
    Boot(BootError),
    #[error("plan {0}")]
    Plan(PlanError),
    #[error("replay {0}")]
    Replay(ReplayError),
    /// The fault of a text, and behind it the lines that are shown of the text.
    #[error("{fault}\n{shown}")]
    Shown { fault: TextFault, shown: ShownText },
    #[error("output {0}")]
    Output(OutputFault),
    /// A read failed, or the input came in too many pieces.
    #[error("read")]
    Read,
    /// A write failed, took nothing, or could not be flushed.
    #[error("write")]
    Write,
    #[error("memory")]
    Memory,
}

impl From<WordsError> for ServeError {
    ghost from_gives = { λ error fault. fault
        ≡ elim error [ words.BadWord index ↦ Words (BadWord index) | words.Memory ↦ Memory ] };

    fn from(error: WordsError) -> ServeError {
        match error {
            WordsError::BadWord(index) => ServeError::Words(WordsFault::BadWord(index)),
            WordsError::Memory => ServeError::Memory,
        }
    }
}

impl From<TextError> for ServeError {
    ghost from_gives = { λ error fault. fault ≡ fault_of_text error };

    fn from(error: TextError) -> ServeError {
        match error {
            TextError::Source(fault) => ServeError::Source(fault),
            TextError::Asm(fault) => ServeError::Asm(fault),
            TextError::Memory => ServeError::Memory,
        }
    }
}

impl From<NamesError> for ServeError {
    ghost from_gives = { λ error fault. fault
        ≡ elim error [ names.BadNames ↦ Route BadRoute | names.Memory ↦ Memory ] };

    fn from(error: NamesError) -> ServeError {
        match error {
            NamesError::BadNames => ServeError::Route(RouteFault::BadRoute),
            NamesError::Memory => ServeError::Memory,
        }
    }
}

impl From<RouteError> for ServeError {
    ghost from_gives = { λ error fault. fault ≡ fault_of_route error };

    fn from(error: RouteError) -> ServeError {
        match error {
            RouteError::Memory => ServeError::Memory,
            _ => ServeError::Route(RouteFault::Nodes(error)),
        }
    }
}

impl From<TreeError> for ServeError {
    ghost from_gives = { λ error fault. fault ≡ fault_of_tree error };

    fn from(error: TreeError) -> ServeError {
        match error {
            TreeError::Memory => ServeError::Memory,
            _ => ServeError::Tree(error),
        }
    }
}

impl From<BootError> for ServeError {
    ghost from_gives = { λ error fault. fault
        ≡ elim error [
          | boot.Memory ↦ Memory
          | boot.Unreached node ↦ Boot (boot.Unreached node)
        ] };

    fn from(error: BootError) -> ServeError {
        match error {
            BootError::Memory => ServeError::Memory,
            BootError::Unreached(_) => ServeError::Boot(error),
        }
    }
}

impl From<(PlanError, Vec<Vec<Node>>)> for ServeError {
    ghost from_gives = { λ refused fault. fault ≡ Plan refused.0 };

    fn from(refused: (PlanError, Vec<Vec<Node>>)) -> ServeError {
        ServeError::Plan(refused.0)
    }
}

impl From<ReplayError> for ServeError {
    ghost from_gives = { λ error fault. fault ≡ fault_of_replay error };

    fn from(error: ReplayError) -> ServeError {
        match error {
            ReplayError::Memory => ServeError::Memory,
            _ => ServeError::Replay(error),
        }
    }
}

impl From<AllocError> for ServeError {
    ghost from_gives = { λ _ fault. fault ≡ Memory };

    fn from(_error: AllocError) -> ServeError {
        ServeError::Memory
    }
}

impl<T: Drop> From<AllocFailed<T>> for ServeError {
    ghost from_gives = { λ _ fault. fault ≡ Memory };

    fn from(_failed: AllocFailed<T>) -> ServeError {
        ServeError::Memory
    }
}
