//! How a chip is loaded from an input.
ghost use Rattle.std.specs.Prelude.{◌≡◌};
ghost use Rattle.ga_input.specs.Fault.{Answers, Gives};
ghost use Rattle.ga_input.specs.Loading.{IsChipIn, IsHeadChip, IsSourceChip, chip_by, is_head, routed_by};
ghost use Rattle.ga_input.specs.Tree.{tree_in};

use crate::fault::ServeError;
use crate::text_fault::shown_fault;
use crate::transcript_fault::shown_transcript_fault;
use crate::tree::tree_of;
use ga_asm::{Images, TextError, assemble_text};
use ga_chip::Chip;
use ga_debug::{ReplayError, booted_tree, load, placed_chip};
use ga_transcript::TranscriptError;
use std::alloc::Global;

/// What an input is, and how a chip is loaded from it.
#[derive(PartialEq, Eq, Drop)]
pub enum Loading {
    /// The head of a session if it begins with `profile`, else source text whose words are placed.
    Any,
    /// Source text, of which each node's words are placed in it.
    Place,
    /// Source text, which boots along a route or a tree.
    Route(String),
}

/// Whether a text is the head of a session.
pub fn is_head(loading: &Loading, text: &str) -> bool
    ensures { result ≡ is_head loading.now text.now }
{
    match loading {
        Loading::Any => text.starts_with("profile"),
        Loading::Place | Loading::Route(_) => false,
    }
}

/// The chip of a text, with its images, or the first fault. `Memory` comes only when out of memory.
pub fn loaded(alloc: Global, loading: &Loading, text: &str) -> Result<(Chip, Images), ServeError>
    ensures { Answers (λ loaded. loaded.0) (IsChipIn loading.now text.now) result }
{
    if is_head(loading, text) {
        return head_chip(alloc, text);
    }
    source_chip(alloc, loading, text)
}

/// The chip of the head of a session, with its images.
fn head_chip(alloc: Global, text: &str) -> Result<(Chip, Images), ServeError>
    ensures { Answers (λ loaded. loaded.0) (IsHeadChip text.now) result }
{
    match load(alloc, text) {
        Ok(loaded) => {
            let program = loaded.program;
            Ok((program.start, program.images))
        }
        Err(ReplayError::Memory) => Err(ServeError::Memory),
        Err(error) => {
            let error = TranscriptError::Head(error);
            Err(shown_transcript_fault(alloc, text, error)?)
        }
    }
}

/// The chip of a source text, with its images.
pub(crate) fn source_chip(
    alloc: Global,
    loading: &Loading,
    text: &str,
) -> Result<(Chip, Images), ServeError>
    ensures { Answers (λ loaded. loaded.0) (IsSourceChip loading.now text.now) result }
{
    match assemble_text(alloc, text) {
        Ok(images) => {
            let chip = chip_by(alloc, loading, &images)?;
            Ok((chip, images))
        }
        Err(TextError::Memory) => Err(ServeError::Memory),
        Err(error) => Err(shown_fault(alloc, text, error)?),
    }
}

/// The chip into which images are loaded.
fn chip_by(alloc: Global, loading: &Loading, images: &Images) -> Result<Chip, ServeError>
    ensures { Gives (λ chip. chip) result (chip_by loading.now images.now) }
{
    match loading {
        Loading::Any | Loading::Place => Ok(placed_chip(alloc, images)?),
        Loading::Route(names) => routed_chip(alloc, names.as_str(), images),
    }
}

/// The chip that boots images along the routes that a text names.
fn routed_chip(alloc: Global, names: &str, images: &Images) -> Result<Chip, ServeError>
    ensures { Gives (λ chip. chip) result (routed_by images.now (tree_in names.now)) }
{
    let tree = tree_of(alloc, names)?;
    let chip = booted_tree(alloc, &tree, images)?;
    Ok(chip)
}
