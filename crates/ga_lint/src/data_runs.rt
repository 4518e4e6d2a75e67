//! Numbers and data that a node runs as code.
ghost use Rattle.std.specs.Prelude.{◌≡◌};
ghost use Rattle.ga_lint.specs.DataRuns as spec;
ghost use Rattle.ga_lint.specs.inner.NodeText.{node_of};

use crate::dead_code::takes_words;
use crate::lookups::land;
use crate::node_text::NodeText;
use crate::reaching::is_code_at;
use ga_place::Where;

/// Whether the word at an address goes to a number or to data of its node.
pub(crate) fn into_data(node: &NodeText<'_>, address: usize) -> bool
    ensures { result ≡ spec.into_data (node_of node.now) address }
{
    match node.dest_at(address) {
        Some(dest) => is_number(node, land(dest)) && !takes_words(node),
        None => false,
    }
}

fn is_number(node: &NodeText<'_>, reached: Where) -> bool
    ensures { result ≡ spec.is_number (node_of node.now) reached }
{
    match reached {
        Where::Ram(at) => {
            let address = usize::from(at);
            address < node.words.len() && !is_code_at(node, address)
        }
        _ => false,
    }
}

/// Whether the node begins at this address, and the word there is a number or data.
pub(crate) fn begins_in_data(node: &NodeText<'_>, address: usize) -> bool
    ensures { result ≡ spec.begins_in_data (node_of node.now) address }
{
    usize::from(node.image.entry()) == address && !is_code_at(node, address)
}
