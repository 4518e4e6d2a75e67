//! Workers whose gates watch them, or hold them back.
use crate::plans::plan;
use crate::values::{WRITE_12_RIGHT, array, chip_with, nodes};
use ga_chip::Ledger;
use ga_group::Gate;
use ga_law_examples::after_run;
use ga_place::Side;
use std::alloc::Global;
use std::sync::atomic::{AtomicU64, Ordering};
use std::test::Fail;
use std::thread;
use std::thread::Threads;

/// A gate that lets a worker into a turn only when the other worker has reached it too.
#[derive(Drop)]
struct InStep {
    // How many turns each worker has reached, and how many of its tries were Moved when it reached
    // the last one.
    turns: [AtomicU64; 2],
    moved: [AtomicU64; 2],
    // How many times a worker has given up waiting.
    given_up: AtomicU64,
}

impl Gate for InStep {
    fn turn(&self, worker: u32, turn: u64, moved: u64) {
        let own = worker as usize % 2;
        self.moved[own].store(moved, Ordering::SeqCst);
        self.turns[own].store(turn.saturating_add(1), Ordering::SeqCst);
        for _ in 0..10_000_000 {
            // the other worker has reached this turn, or one has given up
            if self.turns[1 - own].load(Ordering::SeqCst) > turn
                || self.given_up.load(Ordering::SeqCst) > 0
            {
                return;
            }
            thread::yield_now();
        }
        self.given_up.fetch_add(1, Ordering::SeqCst);
    }
}

#[test]
fn words_cross_between_two_workers(rt: HostRuntime) -> Result<(), Fail> {
    let [node_708, node_709] = nodes(&[708, 709])?;
    let mut chip = chip_with(rt.alloc(), node_708, &WRITE_12_RIGHT)?;
    chip.place(node_709, &array::<64>(&[0x04B02, 0x001D5, 0x089B2])?, 0)?;
    let plan = plan(rt.alloc(), &[&[708], &[709]])?;
    let gate = InStep {
        turns: [AtomicU64::new(0), AtomicU64::new(0)],
        moved: [AtomicU64::new(0), AtomicU64::new(0)],
        given_up: AtomicU64::new(0),
    };
    let chip = after_run(&rt, rt.alloc(), chip, &plan, 40, &gate)?;
    assert!(rt; gate.given_up.load(Ordering::SeqCst) == 0);
    assert!(rt; gate.moved[0].load(Ordering::SeqCst) == 14);
    assert!(rt; gate.moved[1].load(Ordering::SeqCst) == 12);
    let crossed = Ledger {
        written: 1,
        read: 1,
        pending: 0,
    };
    assert!(rt; chip.ledger(node_708, Side::Right) == crossed);
    assert!(rt; chip.ledger(node_709, Side::Right) == crossed);
    Ok(())
}

/// A gate that counts its calls, and those that give another number of moves than one for each turn
/// before: 708 waits behind seven steps, and 000 is held behind 16.
#[derive(Drop)]
struct Watching {
    calls: AtomicU64,
    strange: AtomicU64,
}

impl Gate for Watching {
    fn turn(&self, worker: u32, turn: u64, moved: u64) {
        self.calls.fetch_add(1, Ordering::SeqCst);
        let most = if worker == 0 { 7 } else { 16 };
        if moved != turn.min(most) {
            self.strange.fetch_add(1, Ordering::SeqCst);
        }
    }
}

/// Four times round `. unext`, and the same again from the start, by a jump at address 3.
const ROUNDS: [u32; 4] = [0x048B2, 0x00003, 0x2D1B2, 0x10000];

/// How many calls a gate gets in 20 turns of a plan in which the first worker tries only 708, and a
/// second one 000; and how many of them give a wrong number.
fn watched<R: Threads + Sync>(rt: &R, alloc: Global, names: &[&[u16]]) -> Result<[u64; 2], Fail> {
    let [node_708, node_000] = nodes(&[708, 0])?;
    let mut chip = chip_with(alloc, node_708, &WRITE_12_RIGHT)?;
    chip.place(node_000, &array::<64>(&ROUNDS)?, 0)?;
    chip.set_break(node_000, 0x003);
    let gate = Watching {
        calls: AtomicU64::new(0),
        strange: AtomicU64::new(0),
    };
    let plan = plan(alloc, names)?;
    let _chip = after_run(rt, alloc, chip, &plan, 20, &gate)?;
    let calls = gate.calls.load(Ordering::SeqCst);
    let strange = gate.strange.load(Ordering::SeqCst);
    Ok([calls, strange])
}

#[test]
fn the_gate_is_called_before_the_tries(rt: HostRuntime) -> Result<(), Fail> {
    assert!(rt; watched(&rt, rt.alloc(), &[&[708]])? == [20, 0]);
    assert!(rt; watched(&rt, rt.alloc(), &[&[708], &[0]])? == [40, 0]);
    Ok(())
}
