//! The boot stream of a route.
use crate::values::{TWO_HOPS, nodes, words};
use ga_asm::assemble_text;
use ga_path::{Route, boot};
use std::test::Fail;

#[test]
fn boot_two_hops(rt: HostRuntime) -> Result<(), Fail> {
    let alloc = rt.alloc();
    let nodes = nodes(&[708, 709, 710])?;
    let (load, start) = (
        words(alloc, &TWO_HOPS[..21])?,
        words(alloc, &TWO_HOPS[21..])?,
    );
    let route = Route::new(alloc, &nodes)?;
    let images = assemble_text(alloc, "node 710 .")?;
    let made = boot(alloc, &route, &images)?;
    assert!(rt; made.load == load && made.start == start);
    Ok(())
}
