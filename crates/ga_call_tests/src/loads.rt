//! Chips of the examples that use the law of booting and the verdict on races.
use crate::plans::plan;
use crate::values::{array, node, nodes, word};
use ga_asm::assemble_text;
use ga_boot::images_fit;
use ga_chip::{Chip, Try};
use ga_debug::placed_chip;
use ga_group::Open;
use ga_law_examples::{
    PlannedRun, assemble_firmware, boot_firmware, leaf_is_loaded, ring_chip, round_of,
    run_firmware, settled_top, spinning_tries, stays_at_rest, sum_chip, watched_tries,
};
use ga_place::Side;
use std::alloc::Global;
use std::test::Fail;
use std::thread::Threads;

/// Tries of 708, 709 and 608 by turns, `count` of each: 708 shares its right side with 709, and the
/// lower one with 608.
fn tries(alloc: Global, count: u32) -> Result<Vec<Try>, Fail> {
    let [node_708, node_709, node_608] = nodes(&[708, 709, 608])?;
    let mut tries = Vec::new(alloc);
    for _ in 0..count {
        for (node, side) in [
            (node_708, Side::Right),
            (node_709, Side::Right),
            (node_608, Side::Down),
        ] {
            tries.push(Try { node, side })?;
        }
    }
    Ok(tries)
}

#[test]
fn the_example_meets_its_premises(rt: HostRuntime) -> Result<(), Fail> {
    let [node_708, node_608] = nodes(&[708, 608])?;
    let memory = array::<64>(&[0x2C9B2])?;
    images_fit(&assemble_firmware(rt.alloc()).ok_or("no firmware")?);
    let mut moments = 0u32;
    for count in 0..120 {
        let mut chip = boot_firmware(rt.alloc()).ok_or("no chip")?;
        run_firmware(&mut chip, &tries(rt.alloc(), count)?);
        if chip.stream_left(node_708) <= 11 && chip.ledger(node_708, Side::Down).read < 9 {
            assert!(rt; chip.state(node_608).ram() == memory.as_slice());
            moments = moments.saturating_add(1);
        }
    }
    assert!(rt; moments > 0);
    Ok(())
}

/// The leaves 710 and 609 have the word `. . . .` each.
const TEXT: &str = "node 710 . node 609 .";

/// The chip with 710 loaded: first only 708 and 709 run, by one worker, and then all four nodes by
/// two.
fn loaded<R: Threads + Sync>(rt: &R, alloc: Global, turns: u64) -> Result<Option<Chip>, Fail> {
    let one = PlannedRun {
        plan: plan(alloc, &[&[708, 709]])?,
        turns,
    };
    let other = PlannedRun {
        plan: plan(alloc, &[&[708, 710], &[709, 609]])?,
        turns,
    };
    Ok(leaf_is_loaded(rt, alloc, TEXT, &one, &other, &Open))
}

// One worker may have made all its turns before the other one starts. The load part isn't taken
// then, and the next boot may do better.
#[test]
fn a_leaf_is_loaded_in_pieces(rt: HostRuntime) -> Result<(), Fail> {
    let node_710 = node(710)?;
    let memory = array::<64>(&[0x2C9B2])?;
    assert!(rt; loaded(&rt, rt.alloc(), 0)?.is_none());
    for _ in 0..500 {
        if let Some(chip) = loaded(&rt, rt.alloc(), 200_000)? {
            assert!(rt; chip.state(node_710).ram() == memory.as_slice());
            return Ok(());
        }
    }
    Err("710 isn't loaded")?
}

/// 708 sends 5 and 7 to 709, which adds them.
#[test]
fn the_same_sum_in_every_order(rt: HostRuntime) -> Result<(), Fail> {
    let alloc = rt.alloc();
    let (node_709, twelve) = (node(709)?, word(12)?);
    let tries = tries(alloc, 40)?;
    let Some(mut judged) = sum_chip(alloc) else {
        return Err("memory")?;
    };
    assert!(rt; settled_top(alloc, &mut judged, node_709) == Some(twelve));
    let Some(mut watched) = sum_chip(alloc) else {
        return Err("memory")?;
    };
    assert!(rt; watched_tries(alloc, &mut watched, &tries) == Some(false));
    assert!(rt; watched.state(node_709).t() == twelve);
    Ok(())
}

/// 708 and 710 send to 709, which takes the word that comes first.
#[test]
fn a_race_is_found(rt: HostRuntime) -> Result<(), Fail> {
    let source = "node 708 right a! 1 ! node 710 left a! 2 ! node 709 $1F5 a! @";
    let mut chip = placed_chip(rt.alloc(), &assemble_text(rt.alloc(), source)?)?;
    let [node_708, node_709, node_710] = nodes(&[708, 709, 710])?;
    let mut tries = Vec::new(rt.alloc());
    for _ in 0..8 {
        for (node, side) in [(node_708, Side::Right), (node_710, Side::Left)] {
            tries.push(Try { node, side })?;
        }
    }
    for _ in 0..8 {
        let (node, side) = (node_709, Side::Right);
        tries.push(Try { node, side })?;
    }
    assert!(rt; watched_tries(rt.alloc(), &mut chip, &tries) == Some(true));
    Ok(())
}

/// A word goes round over four nodes: each takes it and posts it, and sees it taken, in 8 turns.
#[test]
fn a_ring_goes_round(rt: HostRuntime) -> Result<(), Fail> {
    let alloc = rt.alloc();
    let (Some(mut ring), Some(mut still)) = (ring_chip(alloc), ring_chip(alloc)) else {
        return Err("memory")?;
    };
    assert!(rt; round_of(alloc, &mut ring) == Some(8));
    assert!(rt; !stays_at_rest(alloc, &mut still));
    let (Some(mut sum), Some(mut other)) = (sum_chip(alloc), sum_chip(alloc)) else {
        return Err("memory")?;
    };
    assert!(rt; stays_at_rest(alloc, &mut sum));
    assert!(rt; round_of(alloc, &mut other) == None);
    Ok(())
}

/// 708 spins, so each of its tries is a step.
#[test]
fn tries_of_a_chip_that_spins(rt: HostRuntime) -> Result<(), Fail> {
    let alloc = rt.alloc();
    let tries = tries(alloc, 40)?;
    let Ok(tried) = spinning_tries(alloc, &tries) else {
        return Err("memory")?;
    };
    assert!(rt; tried.state(node(708)?).steps() == 40);
    Ok(())
}
