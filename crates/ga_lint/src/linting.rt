ghost use Rattle.std.specs.Prelude.{◌≡◌, ◌≢◌, ◌++◌, [], IfErr, IfOk, OnOk, length, map, slice_get};
ghost use Rattle.std.specs.Option.{option_map_or};
ghost use Rattle.ga_asm.specs.Text.{AtMostOne, IsTextFault};
ghost use Rattle.ga_asm.specs.declared.text.TextError.TheVariants.{Memory};
ghost use Rattle.ga_asm.specs.inner.Layout.{plain};
ghost use Rattle.ga_lint.specs.Linting.{HasWarnings, IsLintOf, warnings_from};
ghost use Rattle.ga_lint.specs.NodeView.{node_view};
ghost use Rattle.ga_lint.specs.NodeWarnings.{node_warnings};
ghost use Rattle.ga_source.specs.Program.{item_place, item_place_of, items_at};

use crate::node_text::NodeText;
use crate::node_warnings::push_node;
use crate::warning::Warning;
use ga_asm::{Image, Images, TextError, assemble, word_places};
use ga_disasm::items;
use ga_place::Node;
use ga_source::{Item, ItemPlace, Program, parse};
use std::alloc::{AllocError, Global};

/// The warnings about a source text that assembles, or the text's first fault, as `assemble_text`
/// reports it: node by node in the text's order, in a node by address, those of the labels of an
/// address before those of its word, and these in the order of their kinds. (The rules are this
/// project's own: profile.) Fails with `Memory` only when out of memory.
#[tactic(auto, using(crate::proofs::OneLint::one_lint))]
pub fn lint(alloc: Global, text: &str) -> Result<Vec<Warning>, TextError>
    ensures warnings { IfOk result (λ warnings. HasWarnings text.now warnings.items) }
    ensures fault { IfErr result (λ fault. fault ≢ Memory → IsTextFault text.now fault) }
    // a text has one list of warnings, or one first fault
    ensures only { AtMostOne (IsLintOf text.now) }
{
    let program = parse(alloc, text)?;
    let images = assemble(alloc, &program)?;
    match warnings_of(alloc, &program, &images) {
        Ok(warnings) => Ok(warnings),
        Err(_) => Err(TextError::Memory),
    }
}

/// The warnings about the images of a program.
fn warnings_of(
    alloc: Global,
    program: &Program<'_>,
    images: &Images,
) -> Result<Vec<Warning>, AllocError>
    ensures { IfOk result (λ warnings. warnings.items
        ≡ warnings_from program.now 0 images.now) }
{
    let mut warnings = Vec::new(alloc);
    let found = program.section_places(alloc)?;
    let images = images.images();
    for section in 0..images.len() {
        if let Some((node, image)) = images.get_index(section) {
            let own = places_at(found.as_slice(), section);
            push_section(alloc, &mut warnings, program, section, *node, image, own)?;
        }
    }
    Ok(warnings)
}

/// The places of the items of a section, by its number.
fn places_at(found: &[Vec<ItemPlace>], section: usize) -> &[ItemPlace]
    ensures { result.now
        ≡ option_map_or (λ places. places.items) (slice_get found.now section) [] }
{
    match found.get(section) {
        Some(places) => places.as_slice(),
        None => &[],
    }
}

/// Adds the warnings about the image of a section, whose items have these places.
fn push_section(
    alloc: Global,
    warnings: &mut Vec<Warning>,
    program: &Program<'_>,
    section: usize,
    node: Node,
    image: &Image,
    own: &[ItemPlace],
) -> Result<(), AllocError>
    requires { map item_place_of own.now ≡ map item_place (items_at program.now section) }
    ensures { OnOk result (warnings.new.items ≡ warnings.old.items
        ++ node_warnings node (node_view (items_at program.now section) image.now)) }
{
    let places = word_places(alloc, program, section, own, image)?;
    let words = items(alloc, image.words(), image.code_len())?;
    let node_text = NodeText {
        items: items_of(program, section),
        item_places: own,
        image,
        words: words.as_slice(),
        word_places: places.as_slice(),
    };
    push_node(warnings, node, &node_text)
}

/// The items of a section, by its number.
fn items_of<'a>(program: &'a Program<'_>, section: usize) -> &'a [Item]
    ensures { plain result.now ≡ map (λ placed. placed.item) (items_at program.now section) }
{
    match program.sections().get_index(section) {
        Some((_, part)) => part.items.as_slice(),
        None => &[],
    }
}
