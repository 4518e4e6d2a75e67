//! Source texts that include other ones, by lines: `include "FILE"`.
#![tactic(auto)]

mod error;
mod file;
mod including;
mod line;
mod path;

pub use error::{IncludeError, IncludeFaultKind, IncludePlace};
pub use file::{LineOrigin, SourceFile};
pub use including::{Included, expand_includes};
pub use line::has_includes;
pub use path::{is_below, source_path};
