ghost use Rattle.std.specs.Prelude.{◌≡◌};
ghost use Rattle.ga_lint.specs.OverMemory as spec;
ghost use Rattle.ga_lint.specs.inner.NodeText.{node_of};

use crate::lookups::{is_warm, land};
use crate::node_text::NodeText;
use ga_place::Where;

/// Whether the destination of the word at an address is in memory, where the node has no word.
pub(crate) fn over_memory(node: &NodeText<'_>, address: usize) -> bool
    ensures { result ≡ spec.over_memory (node_of node.now) address }
{
    match node.dest_at(address) {
        Some(dest) => is_missing(node.words.len(), land(dest)),
        None => false,
    }
}

/// Whether it is a word of RAM behind this number of words, or one of ROM that can't be run.
fn is_missing(words: usize, reached: Where) -> bool
    ensures { result ≡ spec.is_missing words reached }
{
    match reached {
        Where::Ram(at) => words <= usize::from(at),
        Where::Rom(at) => !is_warm(at),
        _ => false,
    }
}
