//! Who waits for whom on a chip, and what will never move, as text.
#![tactic(auto)]

mod causes;
mod folded;
mod label;
mod line;
mod op;
mod ring;
mod sides;
mod text;

pub use causes::causes_first;
pub use folded::{is_idle, nodes};
pub use label::push_label;
pub use line::has_begun;
pub use ring::next_of;
pub use sides::{push_doing, push_rest};
pub use text::{push_rings, waits};
