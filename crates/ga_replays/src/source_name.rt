//! The name of a source in the head of a transcript, and the faults of that source.
ghost use Rattle.std.specs.Prelude.{◌≡◌, IfOk, option_map};
ghost use Rattle.ga_messages.specs.Shown.{shown_name};
ghost use Rattle.ga_replays.specs.SourceName.{fault_in_source, name_in_line, session_source, session_source_in, source_named, source_named_in, text_fault_in_source};

use ga_input::{InputFault, Loading, ServeError, TextFault, is_head};
use ga_messages::{ShownText, whole_line};
use std::alloc::{AllocError, Global};
use std::str;

/// The name of the source that the head of an input names, if it is a text that names one.
pub fn source_named(input: &[u8]) -> Option<&str>
    ensures { option_map (λ name. name.now) result ≡ source_named_in input.now }
{
    match str::from_utf8(input) {
        Ok(text) => name_in_text(text),
        Err(_) => None,
    }
}

/// The same of an input that is opened as a session.
pub fn session_source<'a>(loading: &Loading, input: &'a [u8]) -> Option<&'a str>
    ensures { option_map (λ name. name.now) result ≡ session_source_in loading.now input.now }
{
    match str::from_utf8(input) {
        Ok(text) => name_in_session(loading, text),
        Err(_) => None,
    }
}

/// The same of a text that is opened as a session.
fn name_in_session<'a>(loading: &Loading, text: &'a str) -> Option<&'a str>
    ensures { option_map (λ name. name.now) result ≡ session_source loading.now text.now }
{
    if is_head(loading, text) {
        name_in_text(text)
    } else {
        None
    }
}

/// The name of the source that the head of a text names.
fn name_in_text(text: &str) -> Option<&str>
    ensures { option_map (λ name. name.now) result ≡ source_named text.now }
{
    if whole_line(text, 4) == "go" {
        name_in_line(whole_line(text, 3))
    } else {
        None
    }
}

/// The name of a source in a line.
fn name_in_line(line: &str) -> Option<&str>
    ensures { option_map (λ name. name.now) result ≡ name_in_line line.now }
{
    match line.strip_prefix("source ") {
        Some(name) if !name.is_empty() => Some(name),
        _ => None,
    }
}

/// The fault of a source with the name of its file. Fails only when out of memory.
pub fn fault_in_source(
    alloc: Global,
    path: &str,
    fault: ServeError,
) -> Result<ServeError, AllocError>
    ensures { IfOk result (λ named. named ≡ fault_in_source (shown_name path.now) fault) }
{
    match fault {
        ServeError::Input(fault) => Ok(ServeError::InputOf(
            ShownText::of_name(alloc, path)?,
            fault,
        )),
        ServeError::Read => Ok(ServeError::InputOf(
            ShownText::of_name(alloc, path)?,
            InputFault::Read,
        )),
        ServeError::Shown { fault, shown } => {
            let fault = text_fault_in_source(alloc, path, fault)?;
            Ok(ServeError::Shown { fault, shown })
        }
        _ => Ok(fault),
    }
}

/// The fault of a source text with the name of its file.
fn text_fault_in_source(
    alloc: Global,
    path: &str,
    fault: TextFault,
) -> Result<TextFault, AllocError>
    ensures { IfOk result (λ named. named ≡ text_fault_in_source (shown_name path.now) fault) }
{
    match fault {
        TextFault::Source(error) => {
            Ok(TextFault::SourceOf(ShownText::of_name(alloc, path)?, error))
        }
        TextFault::Asm(error) => Ok(TextFault::AsmOf(ShownText::of_name(alloc, path)?, error)),
        _ => Ok(fault),
    }
}
