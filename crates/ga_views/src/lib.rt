//! What subcommands show of a run of a chip: races, and views after the commands of a session. What
//! one shows for an input is in a module of its name.
#![tactic(auto)]

pub mod counts;
pub mod map;
pub mod profile;
pub mod race;
mod race_text;
pub mod report;
pub mod trace;
mod witness;
