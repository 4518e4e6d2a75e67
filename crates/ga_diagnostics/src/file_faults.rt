//! All faults of a source text, as compilers write them.
ghost use Rattle.std.specs.Prelude.{◌≡◌, IfOk, option_map, string_bytes};
ghost use Rattle.ga_diagnostics.specs.FileFaults.{AreFaultMessages, AreFaultsIn, AreFaultsTold, IsFaultMessage, IsHintText, is_of_text, shown_of, source_in};
ghost use Rattle.ga_diagnostics.specs.Lines.{origins_of};

use crate::lines::Lines;
use crate::message::message_with;
use crate::placed_fault::placed_message;
use ga_asm::TextError;
use ga_faults::{Fault, faults};
use ga_hints::hint;
use ga_input::{ServeError, TextFault, as_text, is_session, shown_expand_fault, shown_fault};
use ga_messages::Form;
use std::alloc::{AllocError, Global};

/// What is reported of an input that was refused with a fault, in a form: if the fault is one of
/// source text, all faults of the text, at most 20, each with what may help; or else the fault
/// alone, at its place in the input. A fault that has none gives `None`. Fails only when out of
/// memory. (The forms are this project's own: profile.)
#[tactic(auto, unfolding(crate::specs::FileFaults::AreFaultsTold))]
pub fn faults_message(
    alloc: Global,
    lines: &Lines<'_>,
    form: Form,
    input: &[u8],
    fault: &ServeError,
) -> Result<Option<String>, AllocError>
    ensures { IfOk result (λ told. AreFaultsTold (origins_of lines.now) form input.now fault.now
        (option_map string_bytes told)) }
{
    match source_in(input, fault) {
        Some(text) => Ok(Some(faults_text(alloc, lines, form, text)?)),
        None => placed_message(alloc, lines, form, input, fault),
    }
}

/// The source text of an input that was refused with a fault, if the fault is one of source text. A
/// session is none.
fn source_in<'a>(input: &'a [u8], fault: &ServeError) -> Option<&'a str>
    ensures { option_map (λ text. text.now) result ≡ source_in input.now fault.now }
{
    if !is_session(input) && is_of_text(fault) {
        as_text(input)
    } else {
        None
    }
}

/// Whether a fault is one of source text.
fn is_of_text(fault: &ServeError) -> bool
    ensures { result ≡ is_of_text fault.now }
{
    match fault {
        ServeError::Shown { fault, .. } => matches!(
            fault,
            TextFault::Source(_) | TextFault::Asm(_) | TextFault::Expand(_)
        ),
        _ => false,
    }
}

/// The messages of all faults of a text.
#[tactic(auto, unfolding(crate::specs::FileFaults::AreFaultsIn))]
fn faults_text(
    alloc: Global,
    lines: &Lines<'_>,
    form: Form,
    text: &str,
) -> Result<String, AllocError>
    ensures { IfOk result (λ told. AreFaultsIn (origins_of lines.now) form text.now
        (string_bytes told)) }
{
    let found = faults(alloc, text)?;
    messages(alloc, lines, form, text, &found)
}

/// The messages of faults, one behind the other.
fn messages(
    alloc: Global,
    lines: &Lines<'_>,
    form: Form,
    text: &str,
    found: &[Fault],
) -> Result<String, AllocError>
    ensures { IfOk result (λ told.
        AreFaultMessages (origins_of lines.now) form text.now found.now (string_bytes told)) }
{
    let mut told = String::new(alloc);
    for fault in found {
        let message = message_of(alloc, lines, form, text, fault)?;
        told.push_str(message.as_str())?;
    }
    Ok(told)
}

/// The message of a fault, with what may help.
#[tactic(auto, unfolding(crate::specs::FileFaults::IsFaultMessage))]
fn message_of(
    alloc: Global,
    lines: &Lines<'_>,
    form: Form,
    text: &str,
    fault: &Fault,
) -> Result<String, AllocError>
    ensures { IfOk result (λ message. IsFaultMessage (origins_of lines.now) form text.now fault.now
        (string_bytes message)) }
{
    let hint = hint_of(alloc, text, *fault)?;
    let shown = shown(alloc, text, *fault)?;
    match message_with(alloc, lines, form, hint, &shown)? {
        Some(message) => Ok(message),
        None => Ok(String::new(alloc)),
    }
}

/// What may help with a fault, if anything is known.
#[tactic(auto, unfolding(crate::specs::FileFaults::IsHintText))]
fn hint_of(alloc: Global, text: &str, fault: Fault) -> Result<Option<String>, AllocError>
    ensures { IfOk result (λ hint. IsHintText text.now fault (option_map string_bytes hint)) }
{
    match hint(alloc, text, fault)? {
        Some(hint) => Ok(Some(hint.to_string(alloc)?)),
        None => Ok(None),
    }
}

/// A fault with the lines that are shown of its text.
fn shown(alloc: Global, text: &str, fault: Fault) -> Result<ServeError, AllocError>
    ensures { IfOk result (λ shown. shown ≡ shown_of text.now fault) }
{
    match fault {
        Fault::Expand(error) => shown_expand_fault(alloc, text, error),
        Fault::Source(error) => shown_fault(alloc, text, TextError::Source(error)),
        Fault::Asm(error) => shown_fault(alloc, text, TextError::Asm(error)),
    }
}
