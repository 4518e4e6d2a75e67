//! What subcommands make of programs, which are source texts or words. What one makes of an input
//! is in a module of its name.
#![tactic(auto)]

pub mod asm;
pub mod boot;
pub mod dis;
pub mod expand;
pub mod list;
pub mod one;
pub mod run;
