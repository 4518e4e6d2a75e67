ghost use Rattle.std.specs.Prelude.{◌≡◌, ◌≢◌, ◌++◌, IfErr, IfOk, OnOk, string_bytes};
ghost use Rattle.ga_asm.specs.Text.{AtMostOne, IsTextFault};
ghost use Rattle.ga_asm.specs.declared.text.TextError.TheVariants.{Memory};
ghost use Rattle.ga_list.specs.Labels.{AreLabelsOf, HasLabels, labels_of_images, labels_of_node};

use ga_asm::{Image, Images, TextError, assemble_text};
use ga_place::Node;
use ga_word::Hex3;
use std::alloc::{AllocError, Global};
use std::fmt::Write;

/// The labels of a source text, or its first fault, as `assemble_text` reports it: for each label a
/// line of the name of its node, its own name and its address in three hex digits, with one space
/// between, in the text's order. (The text is this project's own: profile.) Fails with `Memory`
/// only when out of memory.
#[tactic(auto, using(crate::proofs::OneListing::one_labels))]
pub fn list_labels(alloc: Global, text: &str) -> Result<String, TextError>
    ensures labels { IfOk result (λ labels. HasLabels text.now (string_bytes labels)) }
    ensures fault { IfErr result (λ fault. fault ≢ Memory → IsTextFault text.now fault) }
    // a text has one list of labels, or one first fault
    ensures only { AtMostOne (AreLabelsOf text.now) }
{
    let images = assemble_text(alloc, text)?;
    match text_of_labels(alloc, &images) {
        Ok(labels) => Ok(labels),
        Err(_) => Err(TextError::Memory),
    }
}

fn text_of_labels(alloc: Global, images: &Images) -> Result<String, AllocError>
    ensures { IfOk result (λ text. string_bytes text ≡ labels_of_images images.now) }
{
    let mut text = String::new(alloc);
    for (node, image) in images.images() {
        push_labels(&mut text, *node, image)?;
    }
    Ok(text)
}

/// Adds the labels of a node's image.
fn push_labels(text: &mut String, node: Node, image: &Image) -> Result<(), AllocError>
    ensures { OnOk result (string_bytes text.new
        ≡ string_bytes text.old ++ labels_of_node node image.now.labels) }
{
    for (name, address) in image.labels() {
        let address = Hex3::new(u16::from(*address));
        writeln!(text, "{node} {name} {address}")?;
    }
    Ok(())
}
