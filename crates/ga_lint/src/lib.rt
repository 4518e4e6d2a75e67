//! Warnings about source texts that assemble, but are nearly always wrong.
#![tactic(auto)]

mod acting;
mod applying;
mod code_writes;
mod data_runs;
mod dead_code;
mod extended_mode;
mod label_warnings;
mod leaf_returns;
mod leaves_extended;
mod linting;
mod lookups;
mod node_text;
mod node_warnings;
mod over_memory;
mod port_writes;
mod reaching;
mod reads_io;
mod runs_off;
mod split_loop;
mod straight_run;
mod unext_repeats;
mod unreachable;
mod warning;

pub use linting::lint;
pub use warning::{Warning, WarningKind};
