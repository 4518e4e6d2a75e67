//! Runs that the examples of laws make: 708 writes a word to 709.
ghost use Rattle.std.specs.Prelude.{◌≡◌, IfOk, OnOk};
ghost use Rattle.ga_place.specs.declared.side.Side.TheVariants.{Right};

use crate::plans::plan;
use crate::values::{WRITE_12_RIGHT, array, chip_with, node, nodes};
use ga_chip::{Chip, Try};
use ga_group::Open;
use ga_law_examples::{
    one_side, plain_waveform, spinning_plans, tries_beside_stuck, two_parts, waveform_of_text,
};
use ga_place::{Node, Side};
use std::alloc::Global;
use std::test::Fail;

/// Two chips after reset with the same words in 708.
fn two_chips(alloc: Global) -> Result<(Chip, Chip), Fail>
    ensures { IfOk result (λ chips. chips.0 ≡ chips.1) }
{
    let mut one = Chip::reset(alloc)?;
    let mut two = Chip::reset(alloc)?;
    place_both(&mut one, &mut two)?;
    Ok((one, two))
}

/// Places the words in 708 of two chips.
fn place_both(one: &mut Chip, two: &mut Chip) -> Result<(), Fail>
    requires { one.old ≡ two.old }
    ensures { OnOk result (one.new ≡ two.new) }
{
    let node_708 = node(708)?;
    let words = array::<64>(&WRITE_12_RIGHT)?;
    one.place(node_708, &words, 0)?;
    two.place(node_708, &words, 0)?;
    Ok(())
}

/// A try that names the right side.
fn right(node: Node) -> Try
    ensures { result.side ≡ Right }
{
    Try {
        node,
        side: Side::Right,
    }
}

#[test]
fn a_run_in_two_parts(rt: HostRuntime) -> Result<(), Fail> {
    let [node_708, node_709] = nodes(&[708, 709])?;
    let (mut one, mut two) = two_chips(rt.alloc())?;
    let (w, r) = (right(node_708), right(node_709));
    one_side(&mut one, &mut two, &[w, w, w, w], &[w, w, w, w]);
    assert!(rt; one.state(node_708).steps() == 4 && two.state(node_708).steps() == 4);
    two_parts(&mut one, &mut two, &[w, w, w], &[r, w], &[w, w, w, r, w]);
    assert!(rt; one.state(node_708).steps() == 8 && two.state(node_708).steps() == 8);
    assert!(rt; one.state(node_709).steps() == 1 && two.state(node_709).steps() == 1);
    Ok(())
}

#[test]
fn two_orders_at_one_side(rt: HostRuntime) -> Result<(), Fail> {
    let [node_708, node_709] = nodes(&[708, 709])?;
    let (mut one, mut two) = two_chips(rt.alloc())?;
    let (w, r) = (right(node_708), right(node_709));
    let order = [w, w, w, w, w, w, w, r, w];
    let another = [r, w, w, w, r, w, w, w, w, w, r, w];
    one_side(&mut one, &mut two, &order, &another);
    assert!(rt; one.state(node_708).steps() == 8 && two.state(node_708).steps() == 8);
    assert!(rt; one.state(node_709).steps() == 1 && two.state(node_709).steps() == 1);
    Ok(())
}

#[test]
fn two_plans_of_a_chip_that_spins(rt: HostRuntime) -> Result<(), Fail> {
    let [node_708, node_709] = nodes(&[708, 709])?;
    let together = plan(rt.alloc(), &[&[708, 709]])?;
    let apart = plan(rt.alloc(), &[&[708], &[709]])?;
    let (one, other) = spinning_plans(&rt, rt.alloc(), &together, &apart, 100, &Open)?;
    for chip in [one, other] {
        assert!(rt; chip.state(node_708).steps() == 100 && chip.state(node_709).steps() == 100);
    }
    Ok(())
}

#[test]
fn tries_beside_two_stuck_nodes(rt: HostRuntime) -> Result<(), Fail> {
    let nodes = nodes(&[708, 709, 0])?;
    let [node_708, node_709, node_000] = nodes;
    let mut chip = Chip::reset(rt.alloc())?;
    for node in nodes {
        chip.place(node, &array::<64>(&WRITE_12_RIGHT)?, 0)?;
    }
    let (a, b, c) = (right(node_708), right(node_709), right(node_000));
    chip.run(&[a, a, a, a, a, a, a, b, b, b, b, b, b, b]);
    let tries = [a, c, b, c, a, b];
    assert!(rt; tries_beside_stuck(&mut chip, node_708, &tries));
    assert!(rt; chip.state(node_708).steps() == 7 && chip.state(node_000).steps() == 2);
    assert!(rt; !tries_beside_stuck(&mut chip, node_000, &tries));
    assert!(rt; chip.state(node_709).steps() == 7 && chip.state(node_000).steps() == 4);
    Ok(())
}

#[test]
fn waveforms_of_a_node_that_writes(rt: HostRuntime) -> Result<(), Fail> {
    let node_708 = node(708)?;
    let chip = chip_with(rt.alloc(), node_708, &WRITE_12_RIGHT)?;
    let plain = plain_waveform(rt.alloc(), chip, &[node_708], 8)?;
    assert!(rt; plain.contains("\nb10010 ,\n") && plain.contains("\ns000 \"\n"));
    let chip = chip_with(rt.alloc(), node_708, &WRITE_12_RIGHT)?;
    let source = "node 708 main: right b! 18 !b";
    let labelled = waveform_of_text(rt.alloc(), chip, source, &[node_708], 8).ok_or("none")?;
    assert!(rt; labelled.contains("\nb10010 ,\n") && labelled.contains("\nsmain \"\n"));
    Ok(())
}
