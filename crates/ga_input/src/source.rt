ghost use Rattle.ga_input.specs.Fault.{Answers};
ghost use Rattle.ga_input.specs.Source.{IsImagesIn};

use crate::fault::ServeError;
use crate::text::input_text;
use ga_asm::{Images, assemble_text};
use std::alloc::Global;

/// The images of the nodes of an input that is source text.
pub fn images_of(alloc: Global, input: &[u8]) -> Result<Images, ServeError>
    ensures { Answers (λ images. images) (IsImagesIn input.now) result }
{
    let images = assemble_text(alloc, input_text(input)?)?;
    Ok(images)
}
