//! The places of faults in an input that is no source text: words, a replay text or a session.
ghost use Rattle.std.specs.Prelude.{◌≡◌, IfOk, option_map, string_bytes};
ghost use Rattle.ga_messages.specs.Message.{written};
ghost use Rattle.ga_diagnostics.specs.Lines.{origins_of};
ghost use Rattle.ga_diagnostics.specs.PlacedFault as model;
ghost use Rattle.ga_diagnostics.specs.inner.PlacedFault.{placed_in};

use crate::lines::Lines;
use crate::message::{error_message, fault_message};
use crate::word_place::word_place;
use ga_debug::ReplayError;
use ga_explain::meaning;
use ga_input::{
    ServeError, TextFault, WordsFault, as_text, head_line, head_meaning, is_session,
    shown_head_fault, words_meaning,
};
use ga_messages::{Form, ShownText, push_message};
use ga_path::BootError;
use ga_place::Node;
use ga_source::Place;
use std::alloc::{AllocError, Global};

/// The place of a fault, what it is called, and what it means.
#[derive(Clone, Copy)]
struct Placed {
    place: Place,
    name: &'static str,
    meaning: &'static str,
}

/// The message of a fault in a form: at its place in the input, if it is one of words, of a replay
/// text, or of the head of a session that the input itself is; or else as [`fault_message`] writes
/// it.
pub(crate) fn placed_message(
    alloc: Global,
    lines: &Lines<'_>,
    form: Form,
    input: &[u8],
    fault: &ServeError,
) -> Result<Option<String>, AllocError>
    ensures { IfOk result (λ message. option_map string_bytes message
        ≡ model.placed_message (origins_of lines.now) form input.now fault.now) }
{
    let Some(text) = as_text(input) else {
        return fault_message(alloc, lines, form, fault);
    };
    match placed_in_text(alloc, text, fault)? {
        Some(placed) => {
            let node = node_of(fault);
            Ok(Some(message_at(alloc, lines, form, text, placed, node)?))
        }
        None => other_message(alloc, lines, form, text, fault),
    }
}

/// The message of a fault that has no such place. One of the source lines of a replay text is
/// reported as that of a session.
fn other_message(
    alloc: Global,
    lines: &Lines<'_>,
    form: Form,
    text: &str,
    fault: &ServeError,
) -> Result<Option<String>, AllocError>
    ensures { IfOk result (λ message. option_map string_bytes message
        ≡ model.other_message (origins_of lines.now) form text.now fault.now) }
{
    match fault {
        ServeError::Replay(error) => {
            let shown = shown_head_fault(alloc, text, *error)?;
            fault_message(alloc, lines, form, &shown)
        }
        _ => fault_message(alloc, lines, form, fault),
    }
}

/// The message of a fault at its place in a text, which may be about a node.
fn message_at(
    alloc: Global,
    lines: &Lines<'_>,
    form: Form,
    text: &str,
    placed: Placed,
    node: Option<Node>,
) -> Result<String, AllocError>
    ensures { IfOk result (λ message. string_bytes message ≡ written form
        (model.report_on (origins_of lines.now) text.now node (placed_in placed))) }
{
    let Place { line, column } = placed.place;
    let shown = ShownText::new(alloc, text, line, Some(column), placed.meaning)?;
    let (file, line) = lines.origin(line);
    let place = Place { line, column };
    let mut message = String::new(alloc);
    let error = error_message(file, place, placed.name, node, &shown);
    push_message(&mut message, alloc, form, &error)?;
    Ok(message)
}

/// The place of a fault in a text, if it is one of words, of a replay text, or of the head of a
/// session that the text itself is.
fn placed_in_text(
    alloc: Global,
    text: &str,
    fault: &ServeError,
) -> Result<Option<Placed>, AllocError>
    ensures { IfOk result (λ placed. option_map placed_in placed
        ≡ model.placed text.now fault.now) }
{
    match fault {
        ServeError::Words(fault) => Ok(placed_words(text, fault)),
        ServeError::Replay(error) => placed_replay(alloc, text, error),
        ServeError::Shown { fault, .. } => placed_in_session(alloc, text, fault),
        _ => Ok(None),
    }
}

/// The place of a fault of a session's head, if a text itself is that session. If the text only
/// expands to it, the fault has no place: its lines are those of the expansion.
fn placed_in_session(
    alloc: Global,
    text: &str,
    fault: &TextFault,
) -> Result<Option<Placed>, AllocError>
    ensures { IfOk result (λ placed. option_map placed_in placed
        ≡ model.placed_in_session text.now fault.now) }
{
    if !is_session(text.as_bytes()) {
        return Ok(None);
    }
    match fault {
        TextFault::Replay(error) => placed_replay(alloc, text, error),
        TextFault::EarlyReply(line) => Ok(Some(Placed {
            place: start_of(*line as usize),
            name: "EarlyReply",
            meaning: meaning(alloc, "EarlyReply")?,
        })),
        _ => Ok(None),
    }
}

/// The place of a fault of words: that of the word that is none, or of the first one too many; or
/// the end of the text, if there is no word.
fn placed_words(text: &str, fault: &WordsFault) -> Option<Placed>
    ensures { option_map placed_in result ≡ model.placed_words text.now fault.now }
{
    let (index, name) = match fault {
        WordsFault::BadWord(index) => (*index, "BadWord"),
        WordsFault::Empty => (0, "Empty"),
        WordsFault::TooLong => (64, "TooLong"),
        WordsFault::BadCode => return None,
    };
    Some(Placed {
        place: word_place(text.as_bytes(), index),
        name,
        meaning: words_meaning(fault),
    })
}

/// The place of a fault of a replay text or of a session's head: the start of its line. One of its
/// source lines has another place.
fn placed_replay(
    alloc: Global,
    text: &str,
    error: &ReplayError,
) -> Result<Option<Placed>, AllocError>
    ensures { IfOk result (λ placed. option_map placed_in placed
        ≡ model.placed_replay text.now error.now) }
{
    match error {
        ReplayError::Source(_) | ReplayError::Asm(_) => Ok(None),
        _ => Ok(Some(Placed {
            place: start_of(head_line(text, error)),
            name: replay_name(error),
            meaning: head_meaning(alloc, text, error)?,
        })),
    }
}

/// The start of a line.
fn start_of(line: usize) -> Place
    ensures { result ≡ record { line = line; column = 1 } }
{
    Place { line, column: 1 }
}

/// The name of a fault of a replay text, as `explain` has it.
fn replay_name(error: &ReplayError) -> &'static str
    ensures { result.now ≡ model.replay_name error.now }
{
    match error {
        ReplayError::BadProfile => "BadProfile",
        ReplayError::BadRoute => "BadRoute",
        ReplayError::NoGo => "NoGo",
        ReplayError::Source(_) => "Source",
        ReplayError::Asm(_) => "Asm",
        ReplayError::Route(_) => "Route",
        ReplayError::Tree(_) => "Tree",
        ReplayError::Boot(_) => "Boot",
        ReplayError::Bad(_, error) => error.name(),
        ReplayError::Differs(_) => "differs",
        ReplayError::Memory => "Memory",
    }
}

/// The node that a fault is about, if it is about one.
fn node_of(fault: &ServeError) -> Option<Node>
    ensures { result ≡ model.node_of fault.now }
{
    match fault {
        ServeError::Replay(error) => replay_node(error),
        ServeError::Shown { fault, .. } => match fault {
            TextFault::Replay(error) => replay_node(error),
            _ => None,
        },
        _ => None,
    }
}

/// The node that a fault of a replay text is about: one without a route.
fn replay_node(error: &ReplayError) -> Option<Node>
    ensures { result ≡ model.replay_node error.now }
{
    match error {
        ReplayError::Boot(error) => boot_node(error),
        _ => None,
    }
}

fn boot_node(error: &BootError) -> Option<Node>
    ensures { result ≡ model.boot_node error.now }
{
    match error {
        BootError::Unreached(node) => Some(*node),
        BootError::Memory => None,
    }
}
