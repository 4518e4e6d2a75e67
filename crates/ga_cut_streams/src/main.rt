//! Cuts a boot stream into pieces, so that a test sees that the cuts change neither its frames nor
//! a chip.
//!
//! The arguments are the name of the first node, which is given the stream, and the words of the
//! stream, of five digits each. It writes one line: the number of ways to cut the stream that left
//! its frames and the chip alike, or the first difference. If the stream could not be cut the line
//! is the reason, and the status is 1.
#![tactic(auto)]

mod cut;
mod fault;
mod frames;
mod runs;

use crate::cut::Cut;
use crate::fault::Fault;
use crate::frames::frames_differ;
use crate::runs::WholeRun;
use ga_place::Node;
use ga_word::{Word18, read_hex5};
use std::alloc::{AllocGlobal, Global};
use std::env;
use std::process::ExitCode;
use std::rt::Env;

/// How many times a stream is cut at random.
const CHANCES: u64 = 8;

fn main(rt: HostRuntime) -> ExitCode {
    match tell_cuts(&rt) {
        Ok(()) => ExitCode::from(0),
        Err(fault) => {
            let _ = println!(&rt; "{fault}");
            ExitCode::from(1)
        }
    }
}

/// Cuts the stream that the arguments name, and writes the result.
fn tell_cuts<R: Env + AllocGlobal + Print>(rt: &R) -> Result<(), Fault> {
    let alloc = rt.alloc();
    let (node, words) = stream(rt)?;
    let whole = WholeRun::new(alloc, node, &words)?;
    let cuts = cuts(alloc, words.len())?;
    for cut in &cuts {
        if frames_differ(alloc, &words, *cut)? {
            let _ = println!(rt; "other frames");
            return Ok(());
        }
        if whole.differs(alloc, node, &words, *cut)? {
            let _ = println!(rt; "another chip");
            return Ok(());
        }
    }
    let late = match whole.differs_late(alloc, node, &words, Cut::Everywhere)? {
        Some(true) => "another chip at rest",
        Some(false) => "at rest",
        None => "without rest",
    };
    let count = cuts.len();
    let _ = println!(rt; "alike {count}, {late}");
    Ok(())
}

/// The ways to cut a stream of this many words.
fn cuts(alloc: Global, count: usize) -> Result<Vec<Cut>, Fault> {
    let mut cuts = Vec::new(alloc);
    cuts.push(Cut::Everywhere)?;
    for place in 1..count {
        cuts.push(Cut::Behind(place))?;
    }
    for seed in 0..CHANCES {
        cuts.push(Cut::Chance(seed))?;
    }
    Ok(cuts)
}

/// The node and the stream that the arguments name.
fn stream<R: Env + AllocGlobal>(rt: &R) -> Result<(Node, Vec<Word18>), Fault> {
    let Ok(mut arguments) = env::args(rt) else {
        return Err(Fault::Arguments);
    };
    let name = arguments.nth(1).ok_or(Fault::Arguments)?;
    let node = Node::from_digits(name.as_bytes()).ok_or(Fault::Arguments)?;
    let mut words = Vec::new(rt.alloc());
    for argument in arguments {
        words.push(read_hex5(argument.as_bytes()).ok_or(Fault::Arguments)?)?;
    }
    Ok((node, words))
}
