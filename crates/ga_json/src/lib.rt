//! A profile as JSON.
#![tactic(auto)]

mod profile;
mod run;

pub use profile::profile_json;
pub use run::run_json;
