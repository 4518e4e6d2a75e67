//! The warnings about a node.
ghost use Rattle.std.specs.Prelude.{◌≡◌, ◌++◌, ◌<◌, OnOk};
ghost use Rattle.ga_lint.specs.NodeWarnings.{by_address, node_warnings, word_kinds, word_warnings};
ghost use Rattle.ga_lint.specs.inner.NodeText.{node_of};

use crate::applying::applies;
use crate::label_warnings::{push_entry, push_labels};
use crate::node_text::NodeText;
use crate::warning::{Warning, WarningKind};
use ga_place::Node;
use std::alloc::AllocError;

/// The kinds of warnings about words, in their order.
const WORD_KINDS: [WarningKind; 14] = [
    WarningKind::UnextRepeats,
    WarningKind::SplitLoop,
    WarningKind::RunsOff,
    WarningKind::PushesTooMany,
    WarningKind::PopsTooMany,
    WarningKind::Unreachable,
    WarningKind::SeveralPorts,
    WarningKind::ReturnsNowhere,
    WarningKind::LeavesExtended,
    WarningKind::OverMemory,
    WarningKind::IntoData,
    WarningKind::BeginsInData,
    WarningKind::ReadsIo,
    WarningKind::EdgePort,
];

/// Adds the warnings about a node.
#[tactic(auto, unfolding(crate::specs::NodeWarnings::node_warnings))]
pub(crate) fn push_node(
    warnings: &mut Vec<Warning>,
    name: Node,
    node: &NodeText<'_>,
) -> Result<(), AllocError>
    ensures { OnOk result (warnings.new.items
        ≡ warnings.old.items ++ node_warnings name (node_of node.now)) }
{
    push_by_address(warnings, name, node)?;
    push_entry(warnings, name, node)
}

/// Adds those about the labels and words of a node.
#[tactic(auto, unfolding(crate::specs::NodeWarnings::by_address))]
fn push_by_address(
    warnings: &mut Vec<Warning>,
    name: Node,
    node: &NodeText<'_>,
) -> Result<(), AllocError>
    ensures { OnOk result (warnings.new.items
        ≡ warnings.old.items ++ by_address name (node_of node.now)) }
{
    for address in 0..node.words.len() {
        push_labels(warnings, name, node, address)?;
        push_word(warnings, name, node, address)?;
    }
    Ok(())
}

/// Adds the warnings about the word at an address.
fn push_word(
    warnings: &mut Vec<Warning>,
    name: Node,
    node: &NodeText<'_>,
    address: usize,
) -> Result<(), AllocError>
    requires { address < 64 }
    ensures { OnOk result (warnings.new.items
        ≡ warnings.old.items ++ word_warnings name (node_of node.now) address word_kinds) }
{
    push_kinds(warnings, name, node, address, &WORD_KINDS)
}

/// Adds those of these kinds.
fn push_kinds(
    warnings: &mut Vec<Warning>,
    name: Node,
    node: &NodeText<'_>,
    address: usize,
    kinds: &[WarningKind],
) -> Result<(), AllocError>
    requires { address < 64 }
    ensures { OnOk result (warnings.new.items
        ≡ warnings.old.items ++ word_warnings name (node_of node.now) address kinds.now) }
{
    let place = node.word_place(address);
    for kind in kinds {
        if applies(*kind, name, node, address) {
            warnings.push(Warning::new(name, place, *kind))?;
        }
    }
    Ok(())
}
