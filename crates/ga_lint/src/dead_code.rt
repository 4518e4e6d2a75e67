//! Code that never runs.
ghost use Rattle.std.specs.Prelude.{◌≡◌};
ghost use Rattle.ga_lint.specs.DeadCode as spec;
ghost use Rattle.ga_lint.specs.inner.NodeText.{node_of};

use crate::acting::{Act, does};
use crate::code_writes::writes_code;
use crate::leaf_returns::strays;
use crate::node_text::NodeText;
use crate::reaching::{comes_on, is_code_at, is_start};

/// Whether the word at an address is code to which no execution comes.
#[tactic(auto, unfolding(crate::specs::DeadCode::is_dead))]
pub(crate) fn is_dead(node: &NodeText<'_>, address: usize) -> bool
    ensures { result ≡ spec.is_dead (node_of node.now) address }
{
    is_code_at(node, address)
        && !is_start(node, address)
        && !comes_on(node, address)
        && !is_open(node)
}

/// Whether the text doesn't show to which words of the node execution comes.
fn is_open(node: &NodeText<'_>) -> bool
    ensures { result ≡ spec.is_open (node_of node.now) }
{
    runs_off_code(node) || does(node, Act::LeavesCode) || takes_words(node)
}

/// Whether the node may run words that aren't in its text.
pub(crate) fn takes_words(node: &NodeText<'_>) -> bool
    ensures { result ≡ spec.takes_words (node_of node.now) }
{
    does(node, Act::TakesWords) || returns_anywhere(node) || writes_code(node)
}

/// Whether the node begins where it has no code, or goes on behind its code.
fn runs_off_code(node: &NodeText<'_>) -> bool
    ensures { result ≡ spec.runs_off_code (node_of node.now) }
{
    let entry = usize::from(node.image.entry());
    !is_code_at(node, entry) || comes_on(node, node.image.code_len())
}

/// Whether a `;` may go to a word that isn't behind a `call`.
fn returns_anywhere(node: &NodeText<'_>) -> bool
    ensures { result ≡ spec.returns_anywhere (node_of node.now) }
{
    strays(node) && (does(node, Act::SetsR) || !is_start(node, 0))
}
