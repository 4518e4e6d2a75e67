//! Nodes that spin.
ghost use Rattle.std.specs.Prelude.{◌≡◌, true};
ghost use Rattle.ga_node.specs.Spins.{Spins};

use ga_node::NodeState;

/// Whether at most `limit` own steps lead from a node's state back to it.
pub(crate) fn is_spinning(state: &NodeState, limit: u64) -> bool
    ensures { result ≡ true → Spins state.now }
{
    state.period(limit).is_some()
}
