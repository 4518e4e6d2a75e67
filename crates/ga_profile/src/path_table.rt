//! The words of memory of the path, as text.
ghost use Rattle.std.specs.Prelude.{◌≡◌, ◌++◌, IfOk, OnOk, string_bytes};
ghost use Rattle.ga_place.specs.Node as place_spec;
ghost use Rattle.ga_waits.specs.Label.{images_in};
ghost use Rattle.ga_profile.specs.PathTable as spec;
ghost use Rattle.ga_profile.specs.PathTable.{group_row, groups_text};

use crate::alike::LineGroup;
use crate::code::{code_of, push_unloaded};
use crate::share::{push_cell, push_share, share_of};
use ga_asm::Images;
use ga_place::Node;
use std::alloc::{AllocError, Global};
use std::fmt::Write;

/// Adds groups of lines as text.
#[tactic(auto, unfolding(crate::specs::PathTable::groups_text))]
pub(crate) fn push_groups(
    text: &mut String,
    alloc: Global,
    images: Option<&Images>,
    groups: &[LineGroup],
    turns: u64,
) -> Result<(), AllocError>
    ensures { OnOk result (string_bytes text.new ≡ string_bytes text.old
        ++ groups_text (images_in images.entry) groups.now turns) }
{
    text.push_str("path  node     word  where the path goes\n")?;
    for group in groups {
        push_group_row(text, alloc, images, group, turns)?;
    }
    Ok(())
}

/// Adds a group of lines.
#[tactic(auto, unfolding(crate::specs::PathTable::group_row))]
fn push_group_row(
    text: &mut String,
    alloc: Global,
    images: Option<&Images>,
    group: &LineGroup,
    turns: u64,
) -> Result<(), AllocError>
    ensures { OnOk result (string_bytes text.new
        ≡ string_bytes text.old ++ group_row (images_in images.entry) turns group.now) }
{
    let first = group.first;
    push_share(text, alloc, 4, share_of(first.turns, turns))?;
    push_cell(text, 6, node_text(alloc, first.node)?.as_str())?;
    push_others(text, group.others)?;
    push_word(text, alloc, images, first.node, first.word)
}

/// Adds how many other words are in a group, each of another node.
fn push_others(text: &mut String, others: usize) -> Result<(), AllocError>
    ensures { OnOk result (string_bytes text.new
        ≡ string_bytes text.old ++ spec.others_text others) }
{
    match others {
        0 => text.push_str("   "),
        others => write!(text, " +{others}"),
    }
}

/// Adds the word of a line as it was loaded; or else its address, or a dot for code that isn't in
/// memory.
fn push_word(
    text: &mut String,
    alloc: Global,
    images: Option<&Images>,
    node: Node,
    word: Option<u8>,
) -> Result<(), AllocError>
    ensures { OnOk result (string_bytes text.new ≡ string_bytes text.old
        ++ spec.word_text (images_in images.entry) node word) }
{
    let code = code_of(alloc, images, node, word)?;
    if code.is_empty() {
        return push_unloaded(text, alloc, images, node, word);
    }
    text.push_str(code.as_str())
}

fn node_text(alloc: Global, node: Node) -> Result<String, AllocError>
    ensures { IfOk result (λ text. string_bytes text ≡ place_spec.node_text node) }
{
    format!(in alloc; "{node}")
}
