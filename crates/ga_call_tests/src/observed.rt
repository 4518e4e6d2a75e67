//! Observed runs.
use crate::values::{WRITE_12_RIGHT, chip_with, nodes};
use ga_chip::{Outcome, Try};
use ga_observe::{StepCounts, attempt, count_steps, run, turn, turns};
use ga_place::Side;
use std::test::Fail;

/// Node 708 makes six steps of its own, and then posts; 709 takes the word; 708 sees that.
#[test]
fn steps_are_counted(rt: HostRuntime) -> Result<(), Fail> {
    let [node_708, node_709] = nodes(&[708, 709])?;
    let side = Side::Right;
    let mut chip = chip_with(rt.alloc(), node_708, &WRITE_12_RIGHT)?;
    let own = count_steps(&mut chip, 6);
    assert!(rt; own.count(node_708) == 6 && own.count(node_709) == 0);
    let mut counts = StepCounts::new();
    let post = Try {
        node: node_708,
        side,
    };
    run(&mut chip, &mut counts, &[post]);
    let take = Try {
        node: node_709,
        side,
    };
    assert!(rt; attempt(&mut chip, &mut counts, take, 7) == Outcome::Moved);
    assert!(rt; counts.count(node_708) == 1 && counts.count(node_709) == 1);
    assert!(rt; turn(&mut chip, &mut counts, 8) == 1 && counts.count(node_708) == 2);
    assert!(rt; turns(&mut chip, &mut counts, 0) == 0 && counts.count(node_708) == 2);
    Ok(())
}
