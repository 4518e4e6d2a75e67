//! The tests of calls that the program doesn't make, and of workers in threads, with one file for
//! each subject.
//!
//! A crate that has no test of its own is proved once by the gate, and one with tests twice. So the
//! tests have this crate to themselves.
#![tactic(auto)]

#[cfg(test)]
mod boots;
#[cfg(test)]
mod equal_frames;
#[cfg(test)]
mod frames;
#[cfg(test)]
mod gates;
#[cfg(test)]
mod laws;
#[cfg(test)]
mod loads;
#[cfg(test)]
mod names;
#[cfg(test)]
mod nodes;
#[cfg(test)]
mod observed;
#[cfg(test)]
mod pieces;
#[cfg(test)]
mod plans;
#[cfg(test)]
mod ports;
#[cfg(test)]
mod rings;
#[cfg(test)]
mod sessions;
#[cfg(test)]
mod streams;
#[cfg(test)]
mod together;
#[cfg(test)]
mod values;
#[cfg(test)]
mod wrong_streams;
