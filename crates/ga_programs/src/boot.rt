ghost use Rattle.std.specs.Prelude.{◌≡◌, ◌++◌, IfOk, string_bytes};
ghost use Rattle.ga_asm.specs.Text.{AtMostOne};
ghost use Rattle.ga_programs.specs.Boot.{IsBootOutput, part_text, text_by};
ghost use Rattle.ga_input.specs.Fault.{Answers, Gives};
ghost use Rattle.ga_input.specs.Tree.{tree_in};

use ga_asm::Images;
use ga_input::{ServeError, images_of, tree_of};
use ga_path::boot_tree;
use ga_word::{Word18, push_words};
use std::alloc::{AllocError, Global};
use std::fmt::Write;

/// Both parts of the boot stream of the tree of routes and of the input, which is source text, as
/// text.
#[tactic(auto, using(crate::proofs::OneOutput::one_boot_output))]
pub fn output(alloc: Global, routes: &str, input: &[u8]) -> Result<String, ServeError>
    ensures output { Answers string_bytes (IsBootOutput routes.now input.now) result }
    // an input has one output, or one first fault
    ensures only { AtMostOne (IsBootOutput routes.now input.now) }
{
    let images = images_of(alloc, input)?;
    boot_text(alloc, routes, &images)
}

/// Both parts of the boot stream of the tree of routes and of images, as text.
fn boot_text(alloc: Global, routes: &str, images: &Images) -> Result<String, ServeError>
    ensures { Gives string_bytes result (text_by images.now (tree_in routes.now)) }
{
    let tree = tree_of(alloc, routes)?;
    let boot = boot_tree(alloc, &tree, images)?;
    let mut text = String::new(alloc);
    push_part(&mut text, "load", &boot.load)?;
    push_part(&mut text, "start", &boot.start)?;
    Ok(text)
}

/// Adds a line with the name of a part and the number of its words, and the words, eight on a line.
#[tactic(auto, unfolding(crate::specs::Boot::part_text))]
fn push_part(text: &mut String, name: &str, words: &[Word18]) -> Result<(), AllocError>
    ensures { IfOk result (λ done. string_bytes text.new
        ≡ string_bytes text.old ++ part_text name.now words.now) }
{
    writeln!(text, "{name} {}", words.len())?;
    push_words(text, words)?;
    Ok(())
}
