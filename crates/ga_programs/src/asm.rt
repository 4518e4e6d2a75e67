ghost use Rattle.std.specs.Prelude.{◌≡◌, ◌++◌, IfOk, string_bytes};
ghost use Rattle.ga_word.specs.Text.{text_of_words};
ghost use Rattle.ga_asm.specs.Image.{image_line};
ghost use Rattle.ga_asm.specs.Text.{AtMostOne};
ghost use Rattle.ga_programs.specs.Asm.{IsAsmOutput, images_text};
ghost use Rattle.ga_input.specs.Fault.{Answers};

use ga_asm::{Image, Images};
use ga_input::{ServeError, images_of};
use ga_place::Node;
use ga_word::push_words;
use std::alloc::{AllocError, Global};

/// The most bytes that the text of an image has: a line of 36 bytes, and 64 words.
const IMAGE_LENGTH: usize = 36 + 64 * 6;

/// The images of the nodes of the input, which is source text, as text.
#[tactic(auto, using(crate::proofs::OneOutput::one_asm_output), unfolding(ga_input::specs::Text::IsMade))]
pub fn output(alloc: Global, input: &[u8]) -> Result<String, ServeError>
    ensures output { Answers string_bytes (IsAsmOutput input.now) result }
    // an input has one output, or one first fault
    ensures only { AtMostOne (IsAsmOutput input.now) }
{
    let images = images_of(alloc, input)?;
    let text = text_of_images(alloc, &images)?;
    Ok(text)
}

/// The images in order: for each a line, and its words.
fn text_of_images(alloc: Global, images: &Images) -> Result<String, AllocError>
    ensures { IfOk result (λ text. string_bytes text ≡ images_text images.now) }
{
    let images = images.images();
    let mut text = String::with_capacity(alloc, images.len().saturating_mul(IMAGE_LENGTH))?;
    for (node, image) in images {
        push_image(&mut text, *node, image)?;
    }
    Ok(text)
}

/// Adds a line, and the words, eight on a line.
fn push_image(text: &mut String, node: Node, image: &Image) -> Result<(), AllocError>
    ensures { IfOk result (λ done. string_bytes text.new
        ≡ string_bytes text.old
        ++ (image_line node image.now ++ text_of_words image.now.words)) }
{
    image.push_line(text, node)?;
    push_words(text, image.words())?;
    Ok(())
}
