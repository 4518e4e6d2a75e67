//! Routes through the chip and trees of them, and the boot streams that load the nodes along them.
#![tactic(auto)]

mod branches;
mod error;
mod names;
mod parts;
mod route;
mod sequence;
mod stream;
mod tree;

pub use error::{BootError, NamesError, RouteError, TreeError};
pub use names::{read_nodes, read_routes};
pub use parts::{Boot, Part};
pub use route::{Route, routes_along};
pub use sequence::image_of;
pub use stream::{boot, boot_tree};
pub use tree::Tree;
