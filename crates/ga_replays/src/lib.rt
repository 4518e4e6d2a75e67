//! What subcommands do with texts of commands: replay texts, and transcripts, whose heads may name
//! their source. What one makes of an input is in a module of its name.
#![tactic(auto)]

pub mod check;
pub mod debug;
mod file_report;
pub mod record;
pub mod replay;
mod source_name;
mod sourced;

pub use crate::file_report::FileReport;
pub use crate::source_name::{fault_in_source, session_source, source_named};
pub use crate::sourced::Sourced;
