//! The first fault of a text.
ghost use Rattle.std.specs.Prelude.{◌≡◌, ◌≢◌, IfOk, Some};
ghost use Rattle.ga_expand.specs.declared.error.ExpandErrorKind.TheVariants.{Memory};
ghost use Rattle.ga_faults.specs.Faults.{IsFirstFault};
ghost use Rattle.ga_faults.specs.declared.fault.Fault.TheVariants.{Expand};
ghost use Rattle.ga_faults.specs.inner.Faults.{IsFaultOf};

use crate::fault::Fault;
use crate::origins::at_origin;
use ga_asm::{TextError, assemble_text};
use ga_expand::{ExpandError, ExpandErrorKind, expand};
use std::alloc::{AllocError, Global};

/// The first fault of a text of the larger language, which a plain text is too: that of its
/// expansion, as `expand` reports it; or else that of the text that it expands to, as
/// `assemble_text` does, at the place where its token was written. `None` if there is none: the
/// text that it expands to assembles. Fails only when out of memory. (The language is this
/// project's own: profile.)
pub fn first_fault(alloc: Global, text: &str) -> Result<Option<Fault>, AllocError>
    ensures { IfOk result (IsFirstFault text.now) }
{
    let made = match expand(alloc, text) {
        Ok(made) => made,
        Err(error) => return expand_fault(error),
    };
    match assemble_text(alloc, made.text.as_str()) {
        Ok(_) => Ok(None),
        Err(error) => text_fault(at_origin(alloc, text, &made, error)?),
    }
}

/// The fault that an expansion ends with, if it isn't out of memory.
fn expand_fault(error: ExpandError) -> Result<Option<Fault>, AllocError>
    ensures kind { IfOk result (λ _. error.kind ≢ Memory) }
    ensures fault { IfOk result (λ fault. fault ≡ Some (Expand error)) }
{
    if error.kind == ExpandErrorKind::Memory {
        return Err(AllocError);
    }
    Ok(Some(Fault::Expand(error)))
}

/// The fault that a text has, if it isn't out of memory.
fn text_fault(error: TextError) -> Result<Option<Fault>, AllocError>
    ensures { IfOk result (IsFaultOf error) }
{
    match error {
        TextError::Source(error) => Ok(Some(Fault::Source(error))),
        TextError::Asm(error) => Ok(Some(Fault::Asm(error))),
        TextError::Memory => Err(AllocError),
    }
}
