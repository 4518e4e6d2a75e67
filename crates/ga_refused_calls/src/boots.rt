//! A call that boots along a route.
use crate::told::Told;
use ga_asm::assemble_text;
use ga_path::{Route, boot};
use ga_place::Node;
use std::alloc::{AllocError, Global};

/// The boot stream of a route: its nodes and the images are borrowed.
pub fn boot_told(alloc: Global) -> Result<Told, AllocError> {
    let nodes = [Node::new(708).unwrap(), Node::new(709).unwrap()];
    let (Ok(route), Ok(images)) = (
        Route::new(alloc, &nodes),
        assemble_text(alloc, "node 708 $5 node 709 ."),
    ) else {
        return Err(AllocError);
    };
    let came = boot(alloc, &route, &images);
    let is_alike = route.nodes() == nodes.as_slice();
    Ok(Told::answered(came.is_ok(), is_alike))
}
