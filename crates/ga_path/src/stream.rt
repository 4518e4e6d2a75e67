ghost use Rattle.std.specs.Prelude.{◌≡◌, [], ◌∷◌, IfErr, IfOk, List, None, Ok, ℕ};
ghost use Rattle.ga_path.specs.Stream.{IsBootFault, route_words, tree_load, tree_start, unreached};
ghost use Rattle.ga_path.specs.Tree.{IsSound, TreeView, tree_of};

use crate::error::{BootError, TreeError};
use crate::parts::{Boot, Part};
use crate::route::Route;
use crate::sequence::part_words;
use crate::tree::Tree;
use ga_asm::Images;
use ga_place::Node;
use std::alloc::Global;
use std::slice;

/// The boot stream of a tree: what its root is to be given, so that each node with an image has the
/// image's words in memory, and then each node starts, one with an image at the image's entry and
/// one without at its idle address. (The words are this project's own: profile.)
///
/// A node that has an image and isn't in the tree is refused as [`BootError::Unreached`], the first
/// in the images' order. Fails with [`BootError::Memory`] only when out of memory.
pub fn boot_tree(alloc: Global, tree: &Tree, images: &Images) -> Result<Boot, BootError>
    ensures load { IfOk result (λ boot. boot.load.items ≡ tree_load images.now tree.now) }
    ensures start { IfOk result (λ boot. boot.start.items ≡ tree_start images.now tree.now) }
    ensures reached { IfOk result (λ _. unreached images.now tree.now.nodes ≡ None) }
    ensures fault { IfErr result (λ error. IsBootFault images.now tree.now.nodes error) }
{
    if let Some(node) = unreached(tree.nodes(), images) {
        return Err(BootError::Unreached(node));
    }
    let (root, branches) = (tree.root(), tree.branches());
    Ok(Boot {
        load: part_words(alloc, Part::Load, root, branches, images)?,
        start: part_words(alloc, Part::Start, root, branches, images)?,
    })
}

/// The boot stream of a route, which is that of the tree of this one route.
///
/// A node that has an image and isn't on the route is refused as [`BootError::Unreached`], the
/// first in the images' order. Fails with [`BootError::Memory`] only when out of memory.
pub fn boot(alloc: Global, route: &Route, images: &Images) -> Result<Boot, BootError>
    ensures load { IfOk result (λ boot.
        boot.load.items ≡ route_words Part.Load images.now route.now) }
    ensures start { IfOk result (λ boot.
        boot.start.items ≡ route_words Part.Start images.now route.now) }
    ensures reached { IfOk result (λ _. unreached images.now route.now ≡ None) }
    ensures fault { IfErr result (λ error. IsBootFault images.now route.now error) }
    // the result for the tree of this one route, whose root is the route's first node and whose
    // nodes are those of the route
    ensures tree { IfOk result (λ boot. (tree : TreeView) × (tree_of (route.now ∷ []) ≡ Ok tree)
        × IsSound tree × ((names : List ℕ) × (route.now ≡ tree.root ∷ names))
        × (tree.nodes ≡ route.now)
        × (boot.load.items ≡ tree_load images.now tree)
        × (boot.start.items ≡ tree_start images.now tree)) }
{
    // the clause of this call gives the proof that the route has no fault
    let _nodes = route.nodes();
    match Tree::new(alloc, slice::from_ref(route)) {
        Ok(tree) => boot_tree(alloc, &tree, images),
        Err(fault) => {
            // one route is a tree
            prove!(fault == TreeError::Memory);
            Err(BootError::Memory)
        }
    }
}

/// The first node with an image that isn't among these nodes.
fn unreached(nodes: &[Node], images: &Images) -> Option<Node>
    ensures { result ≡ unreached images.now nodes.now }
{
    for (node, _) in images.images() {
        if !nodes.contains(node) {
            return Some(*node);
        }
    }
    None
}
