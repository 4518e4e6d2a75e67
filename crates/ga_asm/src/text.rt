//! From a source text to its images.
ghost use Rattle.std.specs.Prelude.{◌≡◌, ◌≢◌, IfErr, IfOk};
ghost use Rattle.ga_asm.specs.Text.{AtMostOne, HasImages, IsImagesOf, IsTextFault, fault_of_asm, fault_of_source};
ghost use Rattle.ga_asm.specs.declared.text.TextError.TheVariants.{Memory};

use crate::assembling::{Images, assemble};
use crate::error::AsmError;
use ga_pack::{AsmErrorKind, SourceErrorKind};
use ga_source::{SourceError, parse};
use std::alloc::Global;
use thiserror::Error;

/// Why a source text has no images.
#[derive(Clone, Copy, Debug, PartialEq, Eq, Error)]
pub enum TextError {
    /// The first fault of the text.
    #[error("source {0}")]
    Source(SourceError),
    /// The first fault of its program.
    #[error("asm {0}")]
    Asm(AsmError),
    /// Memory was refused.
    #[error("memory")]
    Memory,
}

impl From<SourceError> for TextError {
    ghost from_gives = { λ error fault. fault ≡ fault_of_source error.kind error };

    fn from(error: SourceError) -> TextError {
        match error.kind {
            SourceErrorKind::Memory => TextError::Memory,
            _ => TextError::Source(error),
        }
    }
}

impl From<AsmError> for TextError {
    ghost from_gives = { λ error fault. fault ≡ fault_of_asm error.kind error };

    fn from(error: AsmError) -> TextError {
        match error.kind {
            AsmErrorKind::Memory => TextError::Memory,
            _ => TextError::Asm(error),
        }
    }
}

/// The images of a source text, or its first fault: that of the text, as `parse` reports it, or
/// else that of its program, as `assemble` does. Fails with `Memory` only when out of memory.
#[tactic(auto, using(crate::proofs::OneAnswer::one_answer))]
pub fn assemble_text(alloc: Global, text: &str) -> Result<Images, TextError>
    ensures images { IfOk result (λ images. HasImages text.now images) }
    ensures fault { IfErr result (λ fault. fault ≢ Memory → IsTextFault text.now fault) }
    // a text has one answer: these images, or this fault
    ensures only { AtMostOne (IsImagesOf text.now) }
{
    let program = parse(alloc, text)?;
    let images = assemble(alloc, &program)?;
    Ok(images)
}
