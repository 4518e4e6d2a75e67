//! The gate that keeps workers together, for a worker that waits.
use crate::plans::plan;
use ga_group::{Gate, Together};
use std::alloc::Global;
use std::io;
use std::sync::atomic::{AtomicU64, Ordering};
use std::test::Fail;
use std::time::{Clock, Duration};

/// A clock at which nobody sleeps, and which counts the naps.
#[derive(Drop)]
struct Naps {
    count: AtomicU64,
}

impl Clock for Naps {
    fn monotonic(&self) -> io::Result<Duration> {
        Ok(Duration::ZERO)
    }

    fn since_1970(&self) -> io::Result<Duration> {
        Ok(Duration::ZERO)
    }

    fn sleep(&self, _duration: Duration) {
        self.count.fetch_add(1, Ordering::SeqCst);
    }
}

/// How many naps the gate makes, if the first of two workers makes 4000 turns in each of which this
/// many nodes move, and the other never comes.
fn naps_alone(alloc: Global, names: &[&[u16]], moves: u64) -> Result<u64, Fail> {
    let clock = Naps {
        count: AtomicU64::new(0),
    };
    let plan = plan(alloc, names)?;
    let gate = Together::new(&clock, alloc, &plan, 4000)?;
    for turn in 0..4000 {
        gate.turn(0, turn, moves.saturating_mul(turn));
    }
    Ok(clock.count.load(Ordering::SeqCst))
}

#[test]
fn a_worker_that_never_comes_is_given_up_once(rt: HostRuntime) -> Result<(), Fail> {
    let names: [&[u16]; 2] = [&[708, 709], &[609]];
    // the first worker's nodes wait, one of its two moves, and both move
    assert!(rt; naps_alone(rt.alloc(), &names, 0)? == 1000);
    assert!(rt; naps_alone(rt.alloc(), &names, 1)? == 1000);
    assert!(rt; naps_alone(rt.alloc(), &names, 2)? == 0);
    Ok(())
}
