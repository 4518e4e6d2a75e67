//! A stream that comes in pieces.
use crate::values::{ONE_HOP, nodes, words};
use ga_chip::Chip;
use ga_node::Stop;
use std::test::Fail;

#[test]
fn boot_one_neighbour_in_pieces(rt: HostRuntime) -> Result<(), Fail> {
    let [node_708, node_709] = nodes(&[708, 709])?;
    let alloc = rt.alloc();
    let (load, start) = (words(alloc, &ONE_HOP[..14])?, words(alloc, &ONE_HOP[14..])?);
    let mut chip = Chip::reset(alloc)?;
    assert!(rt; chip.open_stream(node_708).is_ok() && chip.stream_left(node_708) == 0);
    assert!(rt; chip.stuck().contains(node_708) && chip.stuck().count() == 144);
    assert!(rt; chip.feed(node_708, load).is_ok() && chip.stream_left(node_708) == 14);
    assert!(rt; chip.stuck().count() == 0);
    let _moved = chip.turns(4000);
    assert!(rt; chip.stream_left(node_708) == 0 && chip.state(node_709).p() == 0x1D5);
    assert!(rt; chip.feed(node_708, start).is_ok());
    let _moved = chip.turns(4000);
    let started = chip.state(node_709);
    assert!(rt; started.stop() == Some(Stop::IoRead) && started.p() == 2);
    Ok(())
}
