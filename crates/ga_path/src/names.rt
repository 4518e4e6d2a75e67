ghost use Rattle.std.specs.Prelude.{◌≡◌, ◌⊎◌, IfErr, IfOk, None, Some};
ghost use Rattle.ga_place.specs.Node.{node_named};
ghost use Rattle.ga_path.specs.Names.{lists_in, nodes_in, routes_in};
ghost use Rattle.ga_path.specs.declared.error.NamesError.TheVariants.{Memory};

use crate::error::NamesError;
use ga_place::Node;
use std::alloc::Global;

/// The nodes that a text names: of each the three digits of its name, with commas between them.
/// (The form is this project's own: profile.) Any other text is refused as
/// [`NamesError::BadNames`], the empty one too, and one with a name that no node has. Fails with
/// [`NamesError::Memory`] only when out of memory.
pub fn read_nodes(alloc: Global, text: &str) -> Result<Vec<Node>, NamesError>
    ensures nodes { IfOk result (λ nodes. nodes_in text.now ≡ Some nodes.items) }
    ensures bad { IfErr result (λ error. (error ≡ Memory) ⊎ (nodes_in text.now ≡ None)) }
{
    let mut nodes = Vec::new(alloc);
    let mut rest = text.as_bytes();
    loop {
        match rest {
            [a, b, c] => {
                nodes.push(node_of(&[*a, *b, *c])?)?;
                return Ok(nodes);
            }
            [a, b, c, b',', behind @ ..] => {
                nodes.push(node_of(&[*a, *b, *c])?)?;
                rest = behind;
            }
            _ => return Err(NamesError::BadNames),
        }
    }
}

/// The nodes of each route that a text names: a route as [`read_nodes`] reads it, with `/` between
/// routes. (The form is this project's own: profile.) Any other text is refused as
/// [`NamesError::BadNames`], and one with nothing before, between or behind a `/`. Fails with
/// [`NamesError::Memory`] only when out of memory.
pub fn read_routes(alloc: Global, text: &str) -> Result<Vec<Vec<Node>>, NamesError>
    ensures routes { IfOk result (λ routes. routes_in text.now ≡ Some (lists_in routes.items)) }
    ensures bad { IfErr result (λ error. (error ≡ Memory) ⊎ (routes_in text.now ≡ None)) }
{
    let mut routes = Vec::new(alloc);
    for route in text.split('/') {
        routes.push(read_nodes(alloc, route)?)?;
    }
    Ok(routes)
}

/// The node that a text names.
fn node_of(text: &[u8]) -> Result<Node, NamesError>
    ensures node { IfOk result (λ node. node_named text.now ≡ Some node) }
    ensures bad { IfErr result (λ error. node_named text.now ≡ None) }
{
    Node::from_digits(text).ok_or(NamesError::BadNames)
}
