//! Sessions with a chip: commands by lines of text, and their replies.
#![tactic(auto)]

mod address;
mod beginning;
mod breaks;
mod code;
mod command;
mod commands;
mod error;
mod expect;
mod head;
mod help;
mod hint;
mod label;
pub mod laws;
mod mem;
mod pieces;
mod profile;
mod replay_error;
mod replaying;
mod row;
mod session;
mod sides;
mod until;
mod values;
mod word;

pub use address::Address;
pub use beginning::{Loaded, Program, begin, booted_tree, head_source, load, placed_chip};
pub use command::names_command;
pub use error::DebugError;
pub use help::HELP;
pub use pieces::Pieces;
pub use replay_error::ReplayError;
pub use replaying::replay;
pub use session::{Session, reply_into, reply_or_refusal};
pub use word::count_of;
