//! Calls that borrow or take a chip on which a ring of four nodes has started.
use crate::chips::{ring, ring_nodes};
use crate::told::Told;
use ga_chip::Chip;
use ga_dump::chip_text;
use ga_group::{Open, Plan, RunError, run_workers};
use std::alloc::{AllocError, Global};
use std::thread::Threads;

/// How many turns the run has.
const TURNS: u64 = 16;

/// A run of four workers over a chip, which comes back if it is refused.
pub fn run_workers_told<R: Threads + Sync>(rt: &R, alloc: Global) -> Result<Told, AllocError> {
    let plan = plan(alloc)?;
    match run_workers(rt, alloc, ring(alloc)?, &plan, TURNS, &Open) {
        Ok(_) => Ok(Told::Answered),
        Err((fault, chip)) => {
            let is_alike = is_ring(alloc, &chip)?;
            Ok(Told::failed(fault == RunError::Memory, is_alike))
        }
    }
}

/// The text of a borrowed chip.
pub fn chip_text_told(alloc: Global) -> Result<Told, AllocError> {
    let chip = ring(alloc)?;
    let is_answered = chip_text(alloc, &chip).is_ok();
    Ok(Told::answered(is_answered, is_answered || is_ring(alloc, &chip)?))
}

/// Whether a chip shows what the ring shows.
fn is_ring(alloc: Global, chip: &Chip) -> Result<bool, AllocError> {
    Ok(chip_text(alloc, chip)? == chip_text(alloc, &ring(alloc)?)?)
}

/// A worker for each node of the ring.
fn plan(alloc: Global) -> Result<Plan, AllocError> {
    let mut groups = Vec::new(alloc);
    for node in ring_nodes() {
        groups.push(Vec::from_slice(alloc, &[node])?)?;
    }
    match Plan::new(groups) {
        Ok(plan) => Ok(plan),
        Err(_) => Err(AllocError),
    }
}
