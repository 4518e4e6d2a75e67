ghost use Rattle.ga_input.specs.Fault.{Gives};
ghost use Rattle.ga_input.specs.Tree.{tree_in};

use crate::fault::ServeError;
use ga_path::{Tree, read_routes, routes_along};
use std::alloc::Global;

/// The tree of the routes that a text names.
pub fn tree_of(alloc: Global, text: &str) -> Result<Tree, ServeError>
    ensures { Gives (λ tree. tree) result (tree_in text.now) }
{
    let lists = read_routes(alloc, text)?;
    let routes = routes_along(alloc, &lists)?;
    let tree = Tree::new(alloc, &routes)?;
    Ok(tree)
}
