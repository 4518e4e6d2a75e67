//! Workers in threads: a ring of four nodes ends alike with one worker, with two and with four; and
//! workers run at once.
use crate::plans::plan;
use crate::values::nodes;
use ga_asm::assemble_text;
use ga_chip::Chip;
use ga_debug::booted_tree;
use ga_dump::chip_text;
use ga_group::{Gate, Open, Plan};
use ga_law_examples::after_run;
use ga_path::{Route, Tree};
use ga_place::Node;
use std::alloc::Global;
use std::sync::atomic::{AtomicBool, AtomicU32, Ordering};
use std::test::Fail;
use std::thread;
use std::thread::Threads;

/// Four nodes that hand a number round, each of which but the first adds 1.
const RING: &str = "\
node 708 right a! down b! $1 ! @b jump warm
node 709 right a! down b! @ $1 + !b jump warm
node 609 down a! right b! @ $1 + !b jump warm
node 608 right a! down b! @ $1 + !b jump warm
";

/// The ring on a chip that is about to boot.
fn ring(alloc: Global, nodes: &[Node; 4]) -> Result<Chip, Fail> {
    let tree = Tree::new(alloc, &[Route::new(alloc, nodes)?])?;
    let images = assemble_text(alloc, RING)?;
    Ok(booted_tree(alloc, &tree, &images)?)
}

/// Whether all nodes have made as many steps on one chip as on another.
fn are_level(nodes: &[Node; 4], one: &Chip, other: &Chip) -> bool {
    nodes.iter().all(|node| one.state(*node).steps() == other.state(*node).steps())
}

/// The ring by several workers, until it is as far as another.
fn by_several<R: Threads + Sync>(
    rt: &R,
    alloc: Global,
    nodes: &[Node; 4],
    plan: &Plan,
    other: &Chip,
) -> Result<Chip, Fail> {
    let mut chip = ring(alloc, nodes)?;
    for _ in 0..4000 {
        if are_level(nodes, other, &chip) {
            break;
        }
        chip = after_run(rt, alloc, chip, plan, 16, &Open)?;
    }
    Ok(chip)
}

/// Whether the ring ends as on another chip, by workers with these nodes each.
fn ends_alike<R: Threads + Sync>(
    rt: &R,
    alloc: Global,
    nodes: &[Node; 4],
    names: &[&[u16]],
    other: &Chip,
) -> Result<bool, Fail> {
    let plan = plan(alloc, names)?;
    let chip = by_several(rt, alloc, nodes, &plan, other)?;
    Ok(chip_text(alloc, &chip)? == chip_text(alloc, other)?)
}

#[test]
fn ring_of_four(rt: HostRuntime) -> Result<(), Fail> {
    let alloc = rt.alloc();
    let nodes = nodes(&[708, 709, 609, 608])?;
    let alone = plan(alloc, &[&[708, 709, 609, 608]])?;
    let one = after_run(&rt, alloc, ring(alloc, &nodes)?, &alone, 4000, &Open)?;
    assert!(rt; one.state(nodes[0]).t().get() == 4);
    assert!(rt; ends_alike(&rt, alloc, &nodes, &[&[708, 609], &[709, 608]], &one)?);
    assert!(rt; ends_alike(&rt, alloc, &nodes, &[&[708], &[709], &[609], &[608]], &one)?);
    Ok(())
}

/// A gate at which each worker waits in its first turn until all others have come to theirs.
#[derive(Drop)]
struct Meeting {
    workers: u32,
    // How many workers have come, and how many have seen that all have.
    come: AtomicU32,
    met: AtomicU32,
    // Whether a worker has given up waiting: then all do.
    given_up: AtomicBool,
}

impl Gate for Meeting {
    fn turn(&self, _worker: u32, turn: u64, _moved: u64) {
        if turn > 0 {
            return;
        }
        self.come.fetch_add(1, Ordering::SeqCst);
        for _ in 0..10_000_000 {
            if self.come.load(Ordering::SeqCst) == self.workers {
                self.met.fetch_add(1, Ordering::SeqCst);
                return;
            }
            if self.given_up.load(Ordering::SeqCst) {
                return;
            }
            thread::yield_now();
        }
        self.given_up.store(true, Ordering::SeqCst);
    }
}

/// Whether all workers, who have a node each, run at once: each comes to its first turn while the
/// others wait in theirs.
fn overlap<R: Threads + Sync>(
    rt: &R,
    alloc: Global,
    nodes: &[Node],
    workers: u32,
) -> Result<bool, Fail> {
    let mut groups = Vec::new(alloc);
    for node in nodes.iter().take(workers as usize) {
        groups.push(Vec::from_slice(alloc, &[*node])?)?;
    }
    let plan = Plan::new(groups).map_err(|_| "no plan")?;
    let gate = Meeting {
        workers,
        come: AtomicU32::new(0),
        met: AtomicU32::new(0),
        given_up: AtomicBool::new(false),
    };
    let _chip = after_run(rt, alloc, Chip::reset(alloc)?, &plan, 2, &gate)?;
    Ok(gate.met.load(Ordering::SeqCst) == workers)
}

#[test]
fn workers_overlap(rt: HostRuntime) -> Result<(), Fail> {
    let alloc = rt.alloc();
    let nodes = nodes(&[708, 709, 609, 608, 0, 17, 300, 717, 401])?;
    for workers in [2, 3, 4, 5, 9] {
        assert!(rt; overlap(&rt, alloc, &nodes, workers)?, "{workers} workers");
    }
    Ok(())
}
