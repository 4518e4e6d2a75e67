//! The nodes of a program.
ghost use Rattle.std.specs.Prelude.{◌≡◌, ◌++◌, IfOk, OnOk};
ghost use Rattle.ga_wave.specs.Nodes.{if_image, names_with_image};

use ga_asm::Images;
use ga_place::Node;
use std::alloc::{AllocError, Global};

/// The nodes that have an image, in order of name. Fails only when out of memory.
pub fn nodes_with_image(alloc: Global, images: &Images) -> Result<Vec<Node>, AllocError>
    ensures { IfOk result (λ nodes. nodes.items ≡ names_with_image images.now) }
{
    let mut nodes = Vec::new(alloc);
    for index in 0..144 {
        push_if_image(&mut nodes, images, Node::at(index))?;
    }
    Ok(nodes)
}

/// Adds a node, if it has an image.
fn push_if_image(nodes: &mut Vec<Node>, images: &Images, node: Node) -> Result<(), AllocError>
    ensures { OnOk result (nodes.new.items ≡ nodes.old.items ++ if_image images.now node) }
{
    if images.image_of(node).is_some() {
        nodes.push(node)?;
    }
    Ok(())
}
