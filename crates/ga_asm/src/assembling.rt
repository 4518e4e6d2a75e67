//! The images of a program.
ghost use Rattle.std.specs.Prelude.{◌≡◌, ◌≢◌, ◌<◌, ℕ, ◌++◌, ◌∷◌, [], IfErr, IfOk, List, OnOk, false, length, map};
ghost use Rattle.std.specs.Option.{option_copied};
ghost use Rattle.ga_pack.specs.Model.LayoutFault.{AsmFault, ProgramFault};
ghost use Rattle.ga_pack.specs.Model.Source.{Items, is_named, start};
ghost use Rattle.ga_source.specs.Program.{items_at};
ghost use Rattle.ga_source.specs.Token.{place_of};
ghost use Rattle.ga_asm.specs.Assembling.{HasNoFault, IsAssembled};
ghost use Rattle.ga_asm.specs.inner.Assembling.{IsFaultless, IsPlaceOf, IsReported};
ghost use Rattle.ga_asm.specs.Error.{error_place};
ghost use Rattle.ga_asm.specs.Image as spec;
ghost use Rattle.ga_asm.specs.Image.{ImageView};
ghost use Rattle.ga_asm.specs.inner.Layout.{plain};
ghost use Rattle.ga_pack.specs.declared.error_kind.AsmErrorKind.TheVariants.{Memory};

use crate::error::AsmError;
use crate::image::Image;
use crate::layout::{Refusal, first_pass};
use crate::making::second_pass;
use crate::reach::address_of;
use ga_pack::AsmErrorKind;
use ga_place::Node;
use ga_source::{Place, Program, Section};
use indexmap::IndexMap;
use std::alloc::{AllocError, Global};
use std::marker::Model;

/// The images of a program: one for each node that its text names, in its order. A contract sees
/// them as the list of the nodes' names with their images.
#[derive(Drop)]
pub struct Images {
    images: IndexMap<Node, Image>,
}

impl Model for Images {
    ghost Value = { List (ℕ × ImageView) };

    ghost view = { λ images. images.images.entries };
}

impl Images {
    /// The images by their nodes, in the text's order.
    pub fn images(&self) -> &IndexMap<Node, Image>
        ensures { result.now.entries ≡ self.now }
    {
        &self.images
    }

    /// The image of a node, if it is among these.
    pub fn image_of(&self, node: Node) -> Option<&Image>
        ensures { option_copied result ≡ spec.image_of self.now node }
    {
        self.images.get(&node)
    }
}

// The image of a section, or the first fault of its items.
fn image_of(alloc: Global, section: &Section) -> Result<Image, Refusal>
    requires { Items start (plain section.now.items.items) }
    ensures ok { IfOk result (λ image. IsFaultless (plain section.now.items.items) image) }
    ensures err { IfErr result (λ refusal. refusal.kind ≢ Memory
        → AsmFault (plain section.now.items.items) refusal.at refusal.kind) }
    ensures at { IfErr result (λ refusal. refusal.at < length section.now.items.items) }
{
    let items = section.items.as_slice();
    let layout = first_pass(alloc, section.labels.as_slice(), items)?;
    let words = second_pass(alloc, items, &layout)?;
    let code_len = usize::from(layout.data_start.unwrap_or(layout.address));
    let entry = address_of(&layout.labels, "main").unwrap_or(0);
    Ok(Image {
        words,
        code_len,
        entry,
        labels: layout.labels,
        item_counts: layout.counts,
    })
}

// A node that has no image gets one.
fn add_image(
    images: &mut IndexMap<Node, Image>,
    node: Node,
    image: Image,
) -> Result<(), AsmErrorKind>
    requires { is_named node (map (λ entry. entry.0) images.old.entries) ≡ false }
    ensures ok { OnOk result (images.new.entries ≡ images.old.entries ++ (node, image) ∷ []) }
    ensures err { IfErr result (λ kind. kind ≡ Memory) }
{
    images.insert(node, image)?;
    Ok(())
}

// The place at which a fault of an item is reported, by the indices of its section and of the item
// in it: the name that it uses, or else its first token.
fn fault_place(
    alloc: Global,
    program: &Program<'_>,
    section: usize,
    item: usize,
) -> Result<Place, AllocError>
    requires { item < length (items_at program.now section) }
    ensures { IfOk result (λ place. IsPlaceOf (items_at program.now section) item
        (place_of place)) }
{
    let places = program.places(alloc, section)?;
    let found = places[item];
    Ok(found.name.unwrap_or(found.place))
}

// The fault of a section's item, with its node and its place.
fn error_at(
    alloc: Global,
    program: &Program<'_>,
    section: usize,
    node: Node,
    refusal: Refusal,
) -> AsmError
    requires { refusal.at < length (items_at program.now section) }
    ensures node { result.node ≡ node }
    ensures reported { IsReported (items_at program.now section) refusal.at refusal.kind
        result.kind (error_place result) }
{
    if refusal.kind != AsmErrorKind::Memory {
        if let Ok(place) = fault_place(alloc, program, section, refusal.at) {
            return AsmError {
                kind: refusal.kind,
                node,
                line: place.line,
                column: place.column,
            };
        }
    }
    no_memory(node)
}

// Out of memory: the place has no meaning.
fn no_memory(node: Node) -> AsmError
    ensures kind { result.kind ≡ Memory }
    ensures node { result.node ≡ node }
{
    AsmError {
        kind: AsmErrorKind::Memory,
        node,
        line: 1,
        column: 1,
    }
}

/// The images of a program, or the first fault of the program with its node and its place. (The
/// limits are this project's own: profile.)
///
/// Items outside brackets are packed in order, each in the next slot of the last word if it fits
/// there, else in slot 0 of a word of its own. A node has 64 words at most, and a fault is that of
/// the first node in the text's order that has one. Fails with `Memory` only when out of memory.
pub fn assemble(alloc: Global, program: &Program<'_>) -> Result<Images, AsmError>
    ensures images { IfOk result (λ images. IsAssembled program.now images) }
    // they are the only images of the program
    ensures only { IfOk result (λ images. (other : List (ℕ × ImageView))
        → IsAssembled program.now other → other ≡ images) }
    // and the program has no fault
    ensures none { IfOk result (λ _. HasNoFault program.now) }
    // each fault but `Memory` is the first one, with its node and its place
    ensures fault { IfErr result (λ error. error.kind ≢ Memory
        → ProgramFault program.now error.node (error_place error) error.kind) }
{
    let mut images = IndexMap::new(alloc);
    for (node, section) in program.sections() {
        let before = images.len();
        let image = match image_of(alloc, section) {
            Ok(image) => image,
            Err(refusal) => return Err(error_at(alloc, program, before, *node, refusal)),
        };
        if let Err(_) = add_image(&mut images, *node, image) {
            return Err(no_memory(*node));
        }
    }
    Ok(Images { images })
}
