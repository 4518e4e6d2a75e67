//! A gate that keeps the workers of a run together.

use crate::gate::Gate;
use crate::plan::Plan;
use std::alloc::{AllocError, Global};
use std::hint::spin_loop;
use std::sync::atomic::{AtomicBool, AtomicU64, Ordering};
use std::thread;
use std::time::{Clock, Duration};

/// The turns in which a node is tried with each side once. The gate looks once in a round.
const ROUND: u64 = 4;

/// How many turns a worker may be ahead of the slowest. On a busy machine a word between two
/// workers may cost this many turns. A worker looks at the others once in this many, so that the
/// looks cost little.
const WINDOW: u64 = 256;

/// How many clocks a worker reads before its first nap. Four workers then spin for some 20
/// microseconds, which is longer than a word between two processors takes.
const SPINS: usize = 1024;

/// How many naps a worker makes until it gives up those for which it waits. They take some 60
/// milliseconds, which is longer than a thread waits for its processor beside a few others.
const NAPS: usize = 1000;

/// A nap in microseconds. The system makes it longer: some 55 in all.
const NAP: u64 = 1;

/// A claim of no worker: some of its nodes may move.
const ACTIVE: u64 = u64::MAX;

/// The claim of a worker for which no other waits: it has ended, or was given up.
const GONE: u64 = u64::MAX - 1;

/// What a worker publishes, and what it keeps for itself. Both are seven words apart, so that no
/// two of them share a line of 64 bytes, wherever it begins.
#[derive(Drop)]
struct Place {
    // the clock when a node of the worker last moved
    clock: AtomicU64,
    // ACTIVE, GONE, or the sum of all clocks after which each node of the worker waited
    claim: AtomicU64,
    _apart: [u64; 7],
    // the moves up to the last look
    moved: AtomicU64,
    // the sum of all clocks at the last look, or ACTIVE if a node has moved since
    seen: AtomicU64,
    // the clock behind which the worker looks at the others
    limit: AtomicU64,
    // how many turns the clock is ahead of the turns that were made
    ahead: AtomicU64,
    // the moves of a round in which no node waits
    full: u64,
    _behind: [u64; 7],
}

impl Place {
    fn new(nodes: usize) -> Self {
        Place {
            clock: AtomicU64::new(0),
            claim: AtomicU64::new(ACTIVE),
            _apart: [0; 7],
            moved: AtomicU64::new(u64::MAX),
            seen: AtomicU64::new(ACTIVE),
            limit: AtomicU64::new(0),
            ahead: AtomicU64::new(0),
            full: ROUND.saturating_mul(nodes as u64),
            _behind: [0; 7],
        }
    }
}

/// What a worker sees of the others.
#[derive(Clone, Copy)]
struct View {
    // the sum of all clocks, the worker's own too
    sum: u64,
    // the least clock of an active worker, or ACTIVE if there is none
    slowest: u64,
    // whether each other worker is gone, or claims this sum
    are_waiting: bool,
}

impl View {
    /// Whether a worker with this clock is within the window.
    fn admits(self, clock: u64) -> bool {
        clock <= self.slowest.saturating_add(WINDOW)
    }
}

/// A gate that keeps the workers of a run together, so that a worker doesn't spend its turns before
/// others have come to theirs. A worker some of whose nodes wait gets at most some 256 turns ahead
/// of the slowest that is active. A worker none of whose nodes moved in four turns waits until a
/// node of another worker has moved.
///
/// A worker that waits looks at what the others publish, and soon naps between looks. After 1,000
/// naps it gives up those for which it waits, until they move again. If all nodes of all workers
/// wait, no worker is held any more. A gate is for one run, of its plan and over its turns.
#[derive(Drop)]
pub struct Together<'a, R: Clock> {
    rt: &'a R,
    turns: u64,
    // whether all nodes wait, as far as is known
    is_at_rest: AtomicBool,
    places: Vec<Place>,
}

impl<'a, R: Clock> Together<'a, R> {
    /// A gate for a run by this plan over `turns` turns. Fails only when out of memory.
    pub fn new(rt: &'a R, alloc: Global, plan: &Plan, turns: u64) -> Result<Self, AllocError> {
        let mut places = Vec::new(alloc);
        for group in plan.groups() {
            places.push(Place::new(group.len()))?;
        }
        Ok(Together {
            rt,
            turns,
            is_at_rest: AtomicBool::new(false),
            places,
        })
    }

    /// A round of a worker in which a node moved.
    fn publish(&self, own: usize, place: &Place, clock: u64, is_full: bool) {
        place.clock.store(clock, Ordering::SeqCst);
        if place.claim.load(Ordering::SeqCst) != ACTIVE {
            place.claim.store(ACTIVE, Ordering::SeqCst);
        }
        if place.seen.load(Ordering::SeqCst) != ACTIVE {
            place.seen.store(ACTIVE, Ordering::SeqCst);
        }
        if self.is_at_rest.load(Ordering::SeqCst) {
            self.is_at_rest.store(false, Ordering::SeqCst);
        }
        if !is_full && clock > place.limit.load(Ordering::SeqCst) {
            self.hold(own, place, clock, ACTIVE);
        }
    }

    /// A round of a worker in which no node moved. In the next one each node is tried with each
    /// side, after the look that is made here. If again none moves, and the sum of the clocks is
    /// the same, each node waits for another worker's.
    fn wait(&self, own: usize, place: &Place, clock: u64) {
        if self.is_at_rest.load(Ordering::SeqCst) {
            return;
        }
        let sum = self.look(own).sum;
        if place.seen.swap(sum, Ordering::SeqCst) == sum {
            place.claim.store(sum, Ordering::SeqCst);
            self.hold(own, place, clock, sum);
        }
    }

    /// Holds a worker until it is within the window, and the sum of the clocks isn't `seen`.
    fn hold(&self, own: usize, place: &Place, clock: u64, seen: u64) {
        let spins = SPINS.checked_div(self.places.len()).unwrap_or(0);
        for look in 0..spins.saturating_add(NAPS) {
            let view = self.look(own);
            if view.sum != seen && view.admits(clock) {
                admit(place, clock, view);
                return;
            }
            if view.sum == seen && view.are_waiting {
                self.is_at_rest.store(true, Ordering::SeqCst);
            }
            if self.is_at_rest.load(Ordering::SeqCst) {
                return;
            }
            if look < spins {
                spin_loop();
            } else {
                thread::sleep(self.rt, Duration::from_micros(NAP));
            }
        }
        self.give_up(own, clock, seen);
    }

    /// What the others publish.
    fn look(&self, own: usize) -> View {
        let mut view = View {
            sum: 0,
            slowest: ACTIVE,
            are_waiting: true,
        };
        let mut claimed = GONE;
        for (at, place) in self.places.iter().enumerate() {
            let clock = place.clock.load(Ordering::SeqCst);
            let claim = place.claim.load(Ordering::SeqCst);
            view.sum = view.sum.wrapping_add(clock);
            if at == own || claim == GONE {
                continue;
            }
            view.are_waiting &= claim != ACTIVE && (claimed == GONE || claimed == claim);
            claimed = claim;
            if claim == ACTIVE {
                view.slowest = view.slowest.min(clock);
            }
        }
        view.are_waiting &= claimed == GONE || claimed == view.sum;
        view
    }

    /// Gives up those for which a worker waits.
    fn give_up(&self, own: usize, clock: u64, seen: u64) {
        let sum = self.look(own).sum;
        for (at, place) in self.places.iter().enumerate() {
            let claim = place.claim.load(Ordering::SeqCst);
            let others = place.clock.load(Ordering::SeqCst);
            let is_behind = claim == ACTIVE && others.saturating_add(WINDOW) < clock;
            if at != own && (is_behind || seen == sum && claim != sum) {
                let order = Ordering::SeqCst;
                let _changed = place.claim.compare_exchange(claim, GONE, order, order);
            }
        }
    }
}

/// Lets a worker go on. If no node of it has moved since its last look, its clock is set to the
/// slowest, so that no other waits until it has made up for the turns that it didn't spend.
fn admit(place: &Place, clock: u64, view: View) {
    let least = view.slowest.min(clock);
    let limit = least.saturating_add(WINDOW);
    place.limit.store(limit, Ordering::SeqCst);
    if place.seen.load(Ordering::SeqCst) == ACTIVE {
        return;
    }
    place.seen.store(view.sum, Ordering::SeqCst);
    if view.slowest != ACTIVE {
        let behind = view.slowest.saturating_sub(clock);
        place.ahead.fetch_add(behind, Ordering::SeqCst);
    }
}

impl<'a, R: Clock + Sync> Gate for Together<'a, R> {
    fn turn(&self, worker: u32, turn: u64, moved: u64) {
        if turn % ROUND != 0 {
            return;
        }
        let own = worker as usize;
        let Some(place) = self.places.get(own) else {
            return;
        };
        if turn.saturating_add(ROUND) >= self.turns {
            place.claim.store(GONE, Ordering::SeqCst);
            return;
        }
        let clock = turn.wrapping_add(place.ahead.load(Ordering::SeqCst));
        let before = place.moved.load(Ordering::SeqCst);
        if before == moved {
            self.wait(own, place, clock);
            return;
        }
        place.moved.store(moved, Ordering::SeqCst);
        let is_full = moved.wrapping_sub(before) == place.full;
        self.publish(own, place, clock, is_full);
    }
}
