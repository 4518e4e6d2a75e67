//! The prompt: a session that one talks to, line by line.
#![tactic(auto)]

mod answer;
mod byte_reads;
mod conversation;
mod help;
mod nearest;
mod own;
mod refusal;
mod reply;
mod request;
mod saves;
mod typed;

pub use conversation::Conversation;
pub use saves::{SaveFault, Saves};
