//! Boot streams that break the law of booting, beside right ones.
use crate::values::{ONE_HOP, array, node, nodes, words};
use ga_chip::{Chip, Try};
use ga_place::{Node, Side};
use std::alloc::Global;
use std::test::Fail;

/// A chip after reset of which 708 is given a stream.
fn given(alloc: Global, numbers: &[u32]) -> Result<Chip, Fail> {
    let mut chip = Chip::reset(alloc)?;
    match chip.give_stream(node(708)?, words(alloc, numbers)?) {
        Ok(()) => Ok(chip),
        Err(_) => Err("not given")?,
    }
}

/// Whether the memory of a node begins with these numbers and is 0 behind them.
fn holds(chip: &Chip, node: Node, numbers: &[u32]) -> Result<bool, Fail> {
    Ok(chip.state(node).ram() == array::<64>(numbers)?.as_slice())
}

/// The chip of a stream when 708 has posted the start word of 709, and 709 isn't let take it.
fn start_posted(alloc: Global, stream: &[u32]) -> Result<Chip, Fail> {
    let [node_708, node_709] = nodes(&[708, 709])?;
    let mut chip = given(alloc, stream)?;
    chip.set_break(node_709, 0x1D5);
    for _ in 0..400 {
        let _moved = chip.turns(4);
        if chip.is_held(node_709) && chip.ledger(node_708, Side::Right).read < 12 {
            chip.pass_break(node_709)?;
        }
    }
    Ok(chip)
}

/// 709 gets a program that stores 10000 at 004. If it is sent its start word in place of `. . . .`,
/// it runs before the start part begins, and doesn't hold its image any more.
#[test]
fn a_node_that_starts_at_once(rt: HostRuntime) -> Result<(), Fail> {
    let [node_708, node_709] = nodes(&[708, 709])?;
    let program = [0x04A12, 0x00004, 0x10000, 0x0A9B2, 0x10141];
    for (last, is_held) in [(0x2C9B2, true), (0x10000, false)] {
        let stream = [
            0x000AE, 0x001D5, 12, 0x101D5, 0x04A12, 0x00000, 0x00004, 0x2E9B2, 0x05872, 0x04A12,
            0x00004, 0x10000, 0x0A9B2, 0x10141, last, 0x000AE, 0x00000, 0x00000, 0x000AE, 0x001D5,
            1, 0x10000, 0x001B5, 0x00000, 0x00000,
        ];
        let chip = start_posted(rt.alloc(), &stream)?;
        let taken = chip.ledger(node_708, Side::Right).read;
        assert!(rt; chip.stream_left(node_708) <= 7 && taken == 12);
        assert!(rt; holds(&chip, node_709, &program)? == is_held);
    }
    Ok(())
}

/// A chip after tries of 709 until it has taken `sent` words, the last of its load, and of 708
/// until it has taken the load part.
fn load_taken(mut chip: Chip, sent: u64) -> Result<Chip, Fail> {
    let [writer, reader] = [right(708)?, right(709)?];
    for _ in 0..1000 {
        let _posted = chip.attempt(writer);
        if chip.ledger(writer.node, Side::Right).read < sent {
            let _taken = chip.attempt(reader);
        }
    }
    Ok(chip)
}

/// A try of a node that names the right side.
fn right(name: u16) -> Result<Try, Fail> {
    Ok(Try {
        node: node(name)?,
        side: Side::Right,
    })
}

/// Without `. . . .`, 708 takes the whole load part while 709 has still to store the last word.
#[test]
fn a_load_that_nothing_closes(rt: HostRuntime) -> Result<(), Fail> {
    let [node_708, node_709] = nodes(&[708, 709])?;
    let open = [
        0x000AE, 0x001D5, 7, 0x101D5, 0x04A12, 0x00000, 0x00000, 0x2E9B2, 0x05872, 0x2C9B2,
        0x000AE, 0x00000, 0x00000, 0x000AE, 0x001D5, 1, 0x10000, 0x001B5, 0x00000, 0x00000,
    ];
    for (stream, sent, is_held) in [(ONE_HOP.as_slice(), 8, true), (&open, 7, false)] {
        let chip = load_taken(given(rt.alloc(), stream)?, sent)?;
        let taken = chip.ledger(node_708, Side::Right).read;
        assert!(rt; chip.stream_left(node_708) <= 7 && taken == sent);
        assert!(rt; holds(&chip, node_709, &[0x2C9B2])? == is_held);
    }
    Ok(())
}
