//! Messages about the faults of source text.
ghost use Rattle.std.specs.Prelude.{◌≡◌, IfOk, None, Some, option_map, string_bytes};
ghost use Rattle.ga_messages.specs.Message.{report_in};
ghost use Rattle.ga_messages.specs.declared.message.Level.TheVariants.{Error};
ghost use Rattle.ga_pack.specs.Model.LayoutFault.{asm_kind_name};
ghost use Rattle.ga_pack.specs.Model.Token.{source_kind_name};
ghost use Rattle.ga_diagnostics.specs.Lines.{origins_of};
ghost use Rattle.ga_diagnostics.specs.Message.{fault_message, report_at, report_of, told};

use crate::lines::Lines;
use ga_asm::AsmError;
use ga_input::{ServeError, TextFault};
use ga_messages::{Form, Level, Message, ShownText, push_message};
use ga_place::Node;
use ga_source::{Place, SourceError};
use std::alloc::{AllocError, Global};

/// The message of a fault in a form, at the place where its line was written; or `None` if it has
/// no place in source text. A fault of a source that the text names has that one's name. Fails only
/// when out of memory. (The forms are this project's own: profile.)
pub fn fault_message(
    alloc: Global,
    lines: &Lines<'_>,
    form: Form,
    fault: &ServeError,
) -> Result<Option<String>, AllocError>
    ensures { IfOk result (λ text. option_map string_bytes text
        ≡ fault_message (origins_of lines.now) form fault.now) }
{
    message_with(alloc, lines, form, None, fault)
}

/// The same with what may help, if anything is known.
pub(crate) fn message_with(
    alloc: Global,
    lines: &Lines<'_>,
    form: Form,
    hint: Option<String>,
    fault: &ServeError,
) -> Result<Option<String>, AllocError>
    ensures { IfOk result (λ text. option_map string_bytes text
        ≡ told (origins_of lines.now) form (option_map string_bytes hint) fault.now) }
{
    let ServeError::Shown { fault, shown } = fault else {
        return Ok(None);
    };
    match message_of(lines, fault, shown) {
        Some(message) => {
            let mut text = String::new(alloc);
            push_message(&mut text, alloc, form, &Message { hint, ..message })?;
            Ok(Some(text))
        }
        None => Ok(None),
    }
}

/// The message of a fault of a text with what is shown of it, if it is one of source text.
fn message_of<'a>(
    lines: &Lines<'a>,
    fault: &'a TextFault,
    shown: &'a ShownText,
) -> Option<Message<'a>>
    ensures { option_map report_in result
        ≡ report_of (origins_of lines.now) fault.now shown.now }
{
    match fault {
        TextFault::Source(error) => {
            let (file, line) = lines.origin(error.line);
            Some(source_message(file, line, *error, shown))
        }
        TextFault::SourceOf(source, error) => {
            Some(source_message(source.as_str(), error.line, *error, shown))
        }
        TextFault::Asm(error) => {
            let (file, line) = lines.origin(error.line);
            Some(asm_message(file, line, *error, shown))
        }
        TextFault::AsmOf(source, error) => {
            Some(asm_message(source.as_str(), error.line, *error, shown))
        }
        TextFault::Expand(error) => {
            let (file, line) = lines.origin(error.line);
            let place = Place {
                line,
                column: error.column,
            };
            Some(error_message(file, place, error.kind.name(), None, shown))
        }
        TextFault::Include(fault) => {
            let (file, line) = lines.origin(fault.line);
            let place = Place {
                line,
                column: fault.column,
            };
            Some(error_message(file, place, fault.refusal.name(), None, shown))
        }
        _ => None,
    }
}

/// The message of a fault of a source text, which is in this line of a file.
fn source_message<'a>(
    file: &'a str,
    line: usize,
    error: SourceError,
    shown: &'a ShownText,
) -> Message<'a>
    ensures { report_in result ≡ report_at (record { name = file.now; line = line })
        error.column Error (source_kind_name error.kind) None shown.now }
{
    let place = Place {
        line,
        column: error.column,
    };
    error_message(file, place, error.kind.name(), None, shown)
}

/// The message of a fault of a program, which is in this line of a file.
fn asm_message<'a>(file: &'a str, line: usize, error: AsmError, shown: &'a ShownText) -> Message<'a>
    ensures { report_in result ≡ report_at (record { name = file.now; line = line })
        error.column Error (asm_kind_name error.kind) (Some error.node) shown.now }
{
    let place = Place {
        line,
        column: error.column,
    };
    error_message(file, place, error.kind.name(), Some(error.node), shown)
}

/// The message of an error.
pub(crate) fn error_message<'a>(
    file: &'a str,
    place: Place,
    kind: &'static str,
    node: Option<Node>,
    shown: &'a ShownText,
) -> Message<'a>
    ensures { report_in result ≡ report_at (record { name = file.now; line = place.line })
        place.column Error kind.now node shown.now }
{
    Message {
        file,
        place,
        level: Level::Error,
        kind,
        node,
        hint: None,
        shown,
    }
}
