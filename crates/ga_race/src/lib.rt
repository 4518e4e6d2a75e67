//! Runs without races: what one run of a chip shows of all others.
#![tactic(auto)]

mod clock;
mod counts;
mod ending;
mod found;
mod going;
pub mod laws;
mod ports;
mod race_watch;
mod run_watch;
mod spin;
mod verdict;
mod way;

pub use counts::counts_fit;
pub use found::{MultiportTake, Post, Race, SideWord};
pub use race_watch::RaceWatch;
pub use verdict::{Report, Verdict, race};
pub use way::way_to;
