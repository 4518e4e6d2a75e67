//! The job `lint`: warnings about source text, which may be of the larger language.
ghost use Rattle.std.specs.Prelude.{◌≡◌, ◌++◌, IfOk, OnOk, option_map, string_bytes};
ghost use Rattle.ga_input.specs.Fault.{Answers};
ghost use Rattle.ga_diagnostics.specs.Lines.{origins_in, origins_of};
ghost use Rattle.ga_diagnostics.specs.LintJob.{IsLintOutput, file_name, form_of, warning_text, warnings_text};

use crate::lines::Lines;
use ga_expand::Expansion;
use ga_explain::meaning;
use ga_faults::{at_origin, origin};
use ga_input::{ServeError, expanded, shown_fault};
use ga_lint::{Warning, lint};
use ga_messages::{Form, Level, Message, ShownText, push_message};
use ga_source::Place;
use std::alloc::{AllocError, Global};

/// The warnings about the input, which is source text of the larger language or the plain one, in a
/// file or in standard input, at the places where their tokens were written. A fault of the text
/// comes with the lines that are shown of it.
pub fn output(
    alloc: Global,
    json: bool,
    file: &Option<String>,
    input: &[u8],
) -> Result<String, ServeError>
    ensures { Answers string_bytes
        (IsLintOutput (origins_in (file_name (option_map string_bytes file.now))) (form_of json)
        input.now) result }
{
    warnings(alloc, &Lines::File(file_name(file)), form_of(json), input)
}

/// The same in a form, for an input whose lines were written there.
pub fn warnings(
    alloc: Global,
    lines: &Lines<'_>,
    form: Form,
    input: &[u8],
) -> Result<String, ServeError>
    ensures { Answers string_bytes (IsLintOutput (origins_of lines.now) form input.now) result }
{
    let (text, made) = expanded(alloc, input)?;
    match lint(alloc, made.text.as_str()) {
        Ok(found) => Ok(warnings_text(alloc, lines, form, text, &made, &found)?),
        Err(error) => Err(shown_fault(alloc, text, at_origin(alloc, text, &made, error)?)?),
    }
}

/// The messages of warnings about an expansion of a text.
fn warnings_text(
    alloc: Global,
    lines: &Lines<'_>,
    form: Form,
    text: &str,
    made: &Expansion,
    warnings: &[Warning],
) -> Result<String, AllocError>
    ensures { IfOk result (λ shown. string_bytes shown
        ≡ warnings_text (origins_of lines.now) form text.now made.now warnings.now) }
{
    let mut shown = String::new(alloc);
    for warning in warnings {
        push_warning(&mut shown, alloc, lines, form, text, made, *warning)?;
    }
    Ok(shown)
}

/// Adds the message of a warning.
fn push_warning(
    shown: &mut String,
    alloc: Global,
    lines: &Lines<'_>,
    form: Form,
    text: &str,
    made: &Expansion,
    warning: Warning,
) -> Result<(), AllocError>
    ensures { OnOk result (string_bytes shown.new ≡ string_bytes shown.old
        ++ warning_text (origins_of lines.now) form text.now made.now warning) }
{
    let Place { line, column } = origin(alloc, text, made, warning.line, warning.column)?;
    let kind = warning.kind.name();
    let about = ShownText::new(alloc, text, line, Some(column), meaning(alloc, kind)?)?;
    let (file, line) = lines.origin(line);
    let message = Message {
        file,
        place: Place { line, column },
        level: Level::Warning,
        kind,
        node: Some(warning.node),
        hint: None,
        shown: &about,
    };
    push_message(shown, alloc, form, &message)
}

/// The form of messages, as JSON or as text.
pub fn form_of(json: bool) -> Form
    ensures { result ≡ form_of json }
{
    if json { Form::Json } else { Form::Text }
}

/// The name of a file that may be left out: that of standard input is `-`.
fn file_name(file: &Option<String>) -> &str
    ensures { result.now ≡ file_name (option_map string_bytes file.now) }
{
    match file {
        Some(file) => file.as_str(),
        None => "-",
    }
}
