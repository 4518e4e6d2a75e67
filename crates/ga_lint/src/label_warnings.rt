//! The warnings about the labels of a node.
ghost use Rattle.std.specs.Prelude.{◌≡◌, ◌++◌, OnOk, map};
ghost use Rattle.std.specs.List.{position_from};
ghost use Rattle.ga_lint.specs.LabelWarnings as spec;
ghost use Rattle.ga_lint.specs.LabelWarnings.{entry_warnings, label_warnings, unused_labels};
ghost use Rattle.ga_lint.specs.inner.NodeText.{node_of};
ghost use Rattle.ga_source.specs.Item.{item_of};

use crate::dead_code::is_dead;
use crate::node_text::NodeText;
use crate::warning::{Warning, WarningKind};
use ga_place::Node;
use ga_source::Item;
use std::alloc::AllocError;

/// Adds the warnings about the labels of an address, if no execution comes to it.
pub(crate) fn push_labels(
    warnings: &mut Vec<Warning>,
    name: Node,
    node: &NodeText<'_>,
    address: usize,
) -> Result<(), AllocError>
    ensures { OnOk result (warnings.new.items
        ≡ warnings.old.items ++ unused_labels name (node_of node.now) address) }
{
    if is_dead(node, address) {
        push_labels_at(warnings, name, node, address)?;
    }
    Ok(())
}

/// Adds a warning about each label of an address.
fn push_labels_at(
    warnings: &mut Vec<Warning>,
    name: Node,
    node: &NodeText<'_>,
    address: usize,
) -> Result<(), AllocError>
    ensures { OnOk result (warnings.new.items ≡ warnings.old.items
        ++ label_warnings name (node_of node.now) address 0 (node_of node.now).items) }
{
    for (index, item) in node.items.iter().enumerate() {
        if is_label_at(node, address, item) {
            let place = node.item_place(index);
            warnings.push(Warning::new(name, place, WarningKind::UnusedLabel))?;
        }
    }
    Ok(())
}

/// Whether an item is a label with this address.
fn is_label_at(node: &NodeText<'_>, address: usize, item: &Item) -> bool
    ensures { result ≡ spec.is_label_at (node_of node.now) address (item_of item.now) }
{
    let Item::Label(name) = item else {
        return false;
    };
    match node.image.address_of(name.as_str()) {
        Some(at) => usize::from(at) == address,
        None => false,
    }
}

/// Adds a warning about the label `main`, if the node begins there behind its words.
pub(crate) fn push_entry(
    warnings: &mut Vec<Warning>,
    name: Node,
    node: &NodeText<'_>,
) -> Result<(), AllocError>
    ensures { OnOk result (warnings.new.items
        ≡ warnings.old.items ++ entry_warnings name (node_of node.now)) }
{
    let entry = usize::from(node.image.entry());
    if entry == node.words.len() && entry < 64 {
        if let Some(index) = main_index(node.items) {
            let place = node.item_place(index);
            warnings.push(Warning::new(name, place, WarningKind::OverMemory))?;
        }
    }
    Ok(())
}

/// The index of the label `main`.
fn main_index(items: &[Item]) -> Option<usize>
    ensures { result ≡ position_from spec.is_main 0 (map item_of items.now) }
{
    for (index, item) in items.iter().enumerate() {
        if is_main(item) {
            return Some(index);
        }
    }
    None
}

fn is_main(item: &Item) -> bool
    ensures { result ≡ spec.is_main (item_of item.now) }
{
    match item {
        Item::Label(name) => "main" == name.as_str(),
        _ => false,
    }
}
