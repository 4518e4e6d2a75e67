//! What each node of a chip did in the turns of a run, and where the run is slow, as text.
#![tactic(auto)]

mod alike;
mod bar;
mod bottleneck;
mod code;
mod faster;
mod kinds;
pub mod laws;
mod lines;
mod marks;
mod node_pass;
mod node_turns;
mod pass_watch;
mod passes;
mod path;
mod path_table;
mod path_watch;
mod profile;
mod rank;
mod share;
mod stacks;
mod table;
mod text;
mod trail;
mod turn_watch;
mod unread;
mod window;

pub use bottleneck::bottleneck_text;
pub use lines::{PathLine, path_lines};
pub use node_pass::NodePass;
pub use node_turns::{NodeTurns, TurnCounts};
pub use passes::{Moment, Passes};
pub use profile::{Profile, ended, measure};
pub use text::profile_text;
pub use turn_watch::TurnWatch;
pub use unread::unread_nodes;
pub use window::{Window, WindowStart};
