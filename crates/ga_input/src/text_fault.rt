ghost use Rattle.std.specs.Prelude.{◌≡◌, IfOk};
ghost use Rattle.ga_input.specs.TextFault.{shown_expand_fault, shown_fault, shown_include_fault};

use crate::fault::{IncludeFault, ServeError, TextFault};
use ga_asm::TextError;
use ga_expand::{ExpandError, ExpandErrorKind};
use ga_explain::meaning;
use ga_messages::ShownText;
use std::alloc::{AllocError, Global};

/// The fault of a text, with the lines that are shown at its place. Fails only when out of memory.
pub fn shown_fault(alloc: Global, text: &str, error: TextError) -> Result<ServeError, AllocError>
    ensures { IfOk result (λ fault. fault ≡ shown_fault text.now error) }
{
    match error {
        TextError::Source(error) => {
            let meaning = meaning(alloc, error.kind.name())?;
            let shown = ShownText::new(alloc, text, error.line, Some(error.column), meaning)?;
            let fault = TextFault::Source(error);
            Ok(ServeError::Shown { fault, shown })
        }
        TextError::Asm(error) => {
            let meaning = meaning(alloc, error.kind.name())?;
            let shown = ShownText::new(alloc, text, error.line, Some(error.column), meaning)?;
            let fault = TextFault::Asm(error);
            Ok(ServeError::Shown { fault, shown })
        }
        TextError::Memory => Ok(ServeError::Memory),
    }
}

/// The fault of a text of the larger language, with the lines that are shown at its place. Fails
/// only when out of memory.
pub fn shown_expand_fault(
    alloc: Global,
    text: &str,
    error: ExpandError,
) -> Result<ServeError, AllocError>
    ensures { IfOk result (λ fault. fault ≡ shown_expand_fault text.now error) }
{
    if error.kind == ExpandErrorKind::Memory {
        return Ok(ServeError::Memory);
    }
    let meaning = meaning(alloc, error.kind.name())?;
    let shown = ShownText::new(alloc, text, error.line, Some(error.column), meaning)?;
    let fault = TextFault::Expand(error);
    Ok(ServeError::Shown { fault, shown })
}

/// An include line of a text that was refused, with the lines that are shown at its place. Fails
/// only when out of memory.
pub fn shown_include_fault(
    alloc: Global,
    text: &str,
    fault: IncludeFault,
) -> Result<ServeError, AllocError>
    ensures { IfOk result (λ told. told ≡ shown_include_fault text.now fault) }
{
    let meaning = meaning(alloc, fault.refusal.name())?;
    let shown = ShownText::new(alloc, text, fault.line, Some(fault.column), meaning)?;
    let fault = TextFault::Include(fault);
    Ok(ServeError::Shown { fault, shown })
}
