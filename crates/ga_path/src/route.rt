ghost use Rattle.std.specs.Prelude.{◌≡◌, ◌≤◌, ◌<◌, IfErr, IfOk, None, length};
ghost use Rattle.ga_path.specs.Names.{lists_in};
ghost use Rattle.ga_path.specs.Route.{IsRouteFault, IsRoutesFault, route_fault, routes_fault};

use crate::error::RouteError;
use ga_place::{Node, side_to};
use std::alloc::Global;
use std::marker::Model;

/// A way through the chip: nodes, the first at an edge, each other one a neighbour of the node
/// before it, and no node twice. A contract sees the list of their names.
#[derive(Drop)]
pub struct Route {
    nodes: Vec<Node>,
}

impl Model for Route {
    ghost use Rattle.std.specs.Prelude.{◌≡◌, ◌≤◌, ℕ, List, None, length};
    ghost use Rattle.ga_path.specs.Route.{route_fault};

    ghost Value = { List ℕ };

    ghost view = { λ route. route.nodes.items };

    ghost invariant = { λ route. (route_fault route.nodes.items ≡ None)
        × (length route.nodes.items ≤ 144) };
}

impl Route {
    /// A route along these nodes, or their first fault: there is none, the first isn't at an edge;
    /// then, node by node from the second on, it is no neighbour of the one before it, or is on the
    /// route already. (Routes are this project's own: profile.) Fails with [`RouteError::Memory`]
    /// only when out of memory.
    pub fn new(alloc: Global, nodes: &[Node]) -> Result<Self, RouteError>
        ensures route { IfOk result (λ route. route ≡ nodes.now) }
        ensures faultless { IfOk result (λ _. route_fault nodes.now ≡ None) }
        ensures fault { IfErr result (λ error. IsRouteFault nodes.now error) }
    {
        if let Some(fault) = fault_of(nodes) {
            return Err(fault);
        }
        let nodes = Vec::from_slice(alloc, nodes)?;
        Ok(Route { nodes })
    }

    /// The nodes, 1 to 144 of them, the edge node first.
    pub fn nodes(&self) -> &[Node]
        ensures value { result.now ≡ self.now }
        ensures faultless { route_fault result.now ≡ None }
        ensures most { length result.now ≤ 144 }
    {
        &self.nodes
    }
}

/// A route along each of these lists of nodes, in their order, or the first fault, as
/// [`Route::new`] reports it. Fails with [`RouteError::Memory`] only when out of memory.
pub fn routes_along(alloc: Global, lists: &[Vec<Node>]) -> Result<Vec<Route>, RouteError>
    ensures routes { IfOk result (λ routes. routes.items ≡ lists_in lists.now) }
    ensures faultless { IfOk result (λ _. routes_fault (lists_in lists.now) ≡ None) }
    ensures fault { IfErr result (λ error. IsRoutesFault (lists_in lists.now) error) }
{
    let mut routes = Vec::new(alloc);
    for nodes in lists {
        routes.push(Route::new(alloc, nodes)?)?;
    }
    Ok(routes)
}

/// The fault of nodes as a route, if there is one.
fn fault_of(nodes: &[Node]) -> Option<RouteError>
    ensures fault { result ≡ route_fault nodes.now }
    ensures most { result ≡ None → length nodes.now ≤ 144 }
{
    let Some(first) = nodes.first() else {
        return Some(RouteError::Empty);
    };
    // Its name is in the grid. From this the proof gets that a route has at most 144 nodes.
    let _name = first.name();
    if !first.is_edge() {
        return Some(RouteError::NotEdge);
    }
    for at in 1..nodes.len() {
        let node = nodes[at];
        if side_to(nodes[at - 1], node).is_none() {
            return Some(RouteError::NotNeighbour(at));
        }
        if nodes[..at].contains(&node) {
            return Some(RouteError::Repeated(at));
        }
    }
    None
}
