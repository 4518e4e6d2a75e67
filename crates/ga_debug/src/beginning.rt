ghost use Rattle.std.specs.Prelude.{◌≡◌, ◌++◌, ◌+◌, ◌<◌, ◌^◌, IfErr, IfOk, None, Some, length, option_map, string_bytes};
ghost use Rattle.ga_asm.specs.Text.{AtMostOne};
ghost use Rattle.ga_path.specs.Names.{lists_in};
ghost use Rattle.ga_path.specs.Stream.{IsBootFault, unreached};
ghost use Rattle.ga_chip.specs.Chip.{reset_chip, stream_refusal, streamed, unless_refused};
ghost use Rattle.ga_debug.specs.Beginning.{IsBeginning, IsChipOf, IsHeadSource, IsLoaded, all_placed, booted_tree, chip_of, start_view};
ghost use Rattle.ga_path.specs.declared.error.BootError.TheVariants.{Memory};
ghost use Rattle.ga_debug.specs.ReplayError.{Answers};
ghost use Rattle.ga_debug.specs.inner.ReplayError.{Gives};
ghost use Rattle.ga_debug.specs.inner.HeadView.{head_view};

use crate::head::{Head, head_of};
use crate::pieces::Pieces;
use crate::profile::Profile;
use crate::replay_error::ReplayError;
use crate::session::Session;
use ga_asm::{Images, assemble_text};
use ga_chip::Chip;
use ga_path::{Boot, BootError, Tree, boot_tree, routes_along};
use ga_place::Node;
use std::alloc::{AllocError, Global};

/// What the head of a replay text loads.
#[derive(Drop)]
pub struct Program {
    /// The images of its source text.
    pub images: Images,
    /// The chip into which they are loaded, before all commands.
    pub start: Chip,
}

/// What the head of a replay text loads, and the lines behind the head.
#[derive(Drop)]
pub struct Loaded<'a> {
    pub program: Program,
    /// The number of the line `go`, counted from 1.
    pub line: u64,
    /// The lines behind it.
    pub lines: Pieces<'a>,
}

/// The chip and the images of the head of a replay text of profile 2, or the first fault. The lines
/// behind `go` aren't read. Fails with [`ReplayError::Memory`] only when out of memory. (The texts
/// are this project's own: profile.)
#[tactic(auto, using(crate::proofs::OneReplay::one_loaded))]
pub fn load<'a>(alloc: Global, text: &'a str) -> Result<Loaded<'a>, ReplayError>
    ensures loaded { Answers start_view (IsLoaded text.now) result }
    // the lines of a text can be counted
    ensures room { IfOk result (λ loaded. loaded.line + 1 + length loaded.lines < 2 ^ 64) }
    // a text has one chip, or one first fault
    ensures only { AtMostOne (IsLoaded text.now) }
{
    let head = head_of(alloc, Profile::Two, text)?;
    let images = assemble_text(alloc, head.source.as_str())?;
    let chip = loaded_chip(alloc, head.routes.as_deref(), &images)?;
    Ok(Loaded {
        program: Program {
            images,
            start: chip,
        },
        line: head.line,
        lines: head.lines,
    })
}

/// The source lines in the head of a replay text of profile 2, each ended by LF; or the first fault
/// of the head. They aren't parsed. Fails with [`ReplayError::Memory`] only when out of memory.
/// (The texts are this project's own: profile.)
pub fn head_source(alloc: Global, text: &str) -> Result<String, ReplayError>
    ensures { Answers string_bytes (IsHeadSource text.now) result }
{
    let head = head_of(alloc, Profile::Two, text)?;
    Ok(head.source)
}

/// A session over the chip of the head of a replay text of profile 2, and the number of its line
/// `go`, counted from 1; or the first fault. The lines behind `go` aren't read. Fails with
/// [`ReplayError::Memory`] only when out of memory. (The texts are this project's own: profile.)
#[tactic(auto, using(crate::proofs::OneReplay::one_beginning))]
pub fn begin(alloc: Global, text: &str) -> Result<(Session, u64), ReplayError>
    ensures begun { Answers (λ begun. begun) (IsBeginning text.now) result }
    // a text has one beginning, or one first fault
    ensures only { AtMostOne (IsBeginning text.now) }
{
    let head = head_of(alloc, Profile::Two, text)?;
    let chip = chip_after(alloc, &head)?;
    Ok((Session::new(chip), head.line))
}

/// The chip of a head.
pub(crate) fn chip_after(alloc: Global, head: &Head<'_>) -> Result<Chip, ReplayError>
    ensures { Answers (λ chip. chip) (IsChipOf (head_view head.now)) result }
{
    let images = assemble_text(alloc, head.source.as_str())?;
    loaded_chip(alloc, head.routes.as_deref(), &images)
}

/// A chip into which images are loaded: along routes of these nodes, or else each in its node.
fn loaded_chip(
    alloc: Global,
    routes: Option<&[Vec<Node>]>,
    images: &Images,
) -> Result<Chip, ReplayError>
    ensures { Gives (λ chip. chip) result
        (chip_of (option_map (λ lists. lists_in lists.now) routes.entry) images.now) }
{
    match routes {
        None => {
            let chip = placed_chip(alloc, images)?;
            Ok(chip)
        }
        Some(lists) => routed_chip(alloc, lists, images),
    }
}

/// A chip after reset with the words of each image in its node, and P at its entry. Fails only when
/// out of memory.
pub fn placed_chip(alloc: Global, images: &Images) -> Result<Chip, AllocError>
    ensures { IfOk result (λ chip. chip ≡ all_placed images.now reset_chip) }
{
    let mut chip = Chip::reset(alloc)?;
    for (node, image) in images.images() {
        let _placed = chip.place(*node, image.words(), u16::from(image.entry()));
    }
    Ok(chip)
}

/// A chip that boots a tree of routes along these nodes.
fn routed_chip(alloc: Global, lists: &[Vec<Node>], images: &Images) -> Result<Chip, ReplayError>
    ensures { Gives (λ chip. chip) result (chip_of (Some (lists_in lists.now)) images.now) }
{
    let routes = routes_along(alloc, lists)?;
    let tree = Tree::new(alloc, &routes)?;
    let chip = booted_tree(alloc, &tree, images)?;
    Ok(chip)
}

/// A chip after reset that boots a tree: its root was given both parts of the boot stream, load and
/// start, as one stream. A node that has an image and isn't in the tree is refused as
/// [`BootError::Unreached`], the first in the images' order. Fails with [`BootError::Memory`] only
/// when out of memory.
pub fn booted_tree(alloc: Global, tree: &Tree, images: &Images) -> Result<Chip, BootError>
    ensures chip { IfOk result (λ chip. chip ≡ booted_tree images.now tree.now) }
    ensures reached { IfOk result (λ _. unreached images.now tree.now.nodes ≡ None) }
    ensures fault { IfErr result (λ error. IsBootFault images.now tree.now.nodes error) }
{
    let parts = boot_tree(alloc, tree, images)?;
    streamed_chip(alloc, tree.root(), parts)
}

/// A chip after reset, with both parts of a boot stream, load and start, given to a node as one
/// stream.
fn streamed_chip(alloc: Global, root: Node, parts: Boot) -> Result<Chip, BootError>
    ensures chip { IfOk result (λ chip. chip
        ≡ unless_refused (stream_refusal reset_chip root)
        (streamed reset_chip root (parts.load.items ++ parts.start.items)) reset_chip) }
    ensures memory { IfErr result (λ error. error ≡ Memory) }
{
    let mut stream = parts.load;
    stream.extend_from_slice(&parts.start)?;
    let mut chip = Chip::reset(alloc)?;
    let _given = chip.give_stream(root, stream);
    Ok(chip)
}
