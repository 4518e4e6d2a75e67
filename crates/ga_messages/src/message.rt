//! Messages about places in a file.
ghost use Rattle.std.specs.Prelude.{◌≡◌, ◌++◌, OnOk, codes, option_map, string_bytes};
ghost use Rattle.std.specs.Fmt.{decimal};
ghost use Rattle.ga_messages.specs.Message.{hint_remark, kind_text, lines_text, node_remark, report_in, report_text, written};
ghost use Rattle.ga_messages.specs.Report.{level_name};

use crate::json::message_json;
use crate::shown::{ShownText, numbered_line, shown_name};
use ga_place::Node;
use ga_source::Place;
use std::alloc::{AllocError, Global};
use std::fmt::Write;

/// How a message is written.
#[derive(Clone, Copy, Debug, PartialEq, Eq)]
pub enum Form {
    /// As compilers do: a line with the place, the kind and its meaning, and then the line of the
    /// place and a caret.
    Text,
    /// As one object of JSON, on a line.
    Json,
}

/// How grave what a message reports is.
#[derive(Clone, Copy, Debug, PartialEq, Eq)]
pub enum Level {
    Error,
    Warning,
}

impl Level {
    /// `error` or `warning`.
    pub(crate) fn name(self) -> &'static str
        ensures { result.now ≡ level_name self }
    {
        match self {
            Level::Error => "error",
            Level::Warning => "warning",
        }
    }
}

/// What is reported about a place in a file.
#[derive(Drop)]
pub struct Message<'a> {
    /// The file's name.
    pub file: &'a str,
    /// Where in the file.
    pub place: Place,
    pub level: Level,
    pub kind: &'a str,
    /// The node whose program has the fault, if it is one of a program.
    pub node: Option<Node>,
    /// What may help, if anything is known.
    pub hint: Option<String>,
    /// The line of the place, a caret, and what the kind means.
    pub shown: &'a ShownText,
}

/// Adds a message in a form to a text; each of its lines ends with LF. Fails only when out of
/// memory; a part of it may have been added then. (The forms are this project's own: profile.)
pub fn push_message(
    text: &mut String,
    alloc: Global,
    form: Form,
    message: &Message<'_>,
) -> Result<(), AllocError>
    ensures { OnOk result (string_bytes text.new
        ≡ string_bytes text.old ++ written form (report_in message.now)) }
{
    match form {
        Form::Text => push_text(text, alloc, message),
        Form::Json => {
            let object = message_json(alloc, message)?;
            write!(text, "{object}\n")
        }
    }
}

/// Adds a message as compilers write it.
#[tactic(auto, unfolding(crate::specs::Message::report_text, crate::specs::Message::place_text))]
fn push_text(text: &mut String, alloc: Global, message: &Message<'_>) -> Result<(), AllocError>
    ensures { OnOk result (string_bytes text.new
        ≡ string_bytes text.old ++ report_text (report_in message.now)) }
{
    let shown = message.shown.as_str();
    let file = shown_name(alloc, message.file)?;
    push_place(text, file.as_str(), message.place)?;
    push_kind(text, message.level, message.kind, numbered_line(shown, 3))?;
    push_node(text, message.node)?;
    push_hint(text, alloc, &message.hint)?;
    push_lines(text, shown)
}

/// Adds where a message is: the file's name, as it is shown, and the place in it.
fn push_place(text: &mut String, file: &str, place: Place) -> Result<(), AllocError>
    ensures { OnOk result (string_bytes text.new ≡ string_bytes text.old
        ++ (file.now ++ codes ":" ++ decimal place.line ++ codes ":" ++ decimal place.column
        ++ codes ": ")) }
{
    let Place { line, column } = place;
    write!(text, "{file}:{line}:{column}: ")
}

/// Adds how grave it is, its kind, and what that means.
#[tactic(auto, unfolding(crate::specs::Message::kind_text))]
fn push_kind(text: &mut String, level: Level, kind: &str, meaning: &str) -> Result<(), AllocError>
    ensures { OnOk result (string_bytes text.new ≡ string_bytes text.old
        ++ kind_text level kind.now meaning.now) }
{
    let level = level.name();
    write!(text, "{level}: {kind}: {meaning}")
}

/// Adds which node has the fault, if it is known.
fn push_node(text: &mut String, node: Option<Node>) -> Result<(), AllocError>
    ensures { OnOk result (string_bytes text.new
        ≡ string_bytes text.old ++ node_remark node) }
{
    if let Some(node) = node {
        write!(text, " (node {node})")?;
    }
    Ok(())
}

/// Adds what may help, if anything is known, as it is shown in one line.
fn push_hint(text: &mut String, alloc: Global, hint: &Option<String>) -> Result<(), AllocError>
    ensures { OnOk result (string_bytes text.new
        ≡ string_bytes text.old ++ hint_remark (option_map string_bytes hint.now)) }
{
    if let Some(hint) = hint {
        let shown = shown_name(alloc, hint.as_str())?;
        write!(text, "; {shown}")?;
    }
    Ok(())
}

/// Adds the line of a place, and a caret.
#[tactic(auto, unfolding(crate::specs::Message::lines_text))]
fn push_lines(text: &mut String, shown: &str) -> Result<(), AllocError>
    ensures { OnOk result (string_bytes text.new ≡ string_bytes text.old
        ++ lines_text shown.now) }
{
    let first = numbered_line(shown, 1);
    let caret = numbered_line(shown, 2);
    write!(text, "\n{first}\n{caret}\n")
}
