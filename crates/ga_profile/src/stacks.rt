//! The nodes with the fullest stacks.
ghost use Rattle.std.specs.Prelude.{◌≡◌, ◌++◌, IfOk, OnOk, Some, length, string_bytes};
ghost use Rattle.ga_trace.specs.Depth.{passed_text};
ghost use Rattle.ga_waits.specs.Label.{images_in};
ghost use Rattle.ga_profile.specs.Stacks as spec;
ghost use Rattle.ga_profile.specs.Stacks.{all_fullness, headed, passed_part, stack_row, stack_row_if, stack_rows, stacks_text};

use crate::node_turns::NodeTurns;
use crate::rank::ranked;
use crate::share::push_number;
use ga_asm::Images;
use ga_place::{Node, locate};
use ga_trace::StackDepths;
use ga_waits::push_label;
use ga_word::Hex3;
use std::alloc::{AllocError, Global};
use std::fmt::Write;

/// How many words the data stack has room for: T, S and eight more (the F18A reference, DB001).
const DATA_ROOM: u64 = 10;

/// How many words the return stack has room for: R and eight more (the F18A reference, DB001).
const RETURN_ROOM: u64 = 9;

/// Adds the ten nodes that began with the fullest stacks, the fullest first, and where these had no
/// room.
pub(crate) fn push_stacks(
    text: &mut String,
    alloc: Global,
    images: Option<&Images>,
    nodes: &[NodeTurns],
    depths: &[StackDepths],
) -> Result<(), AllocError>
    requires nodes { length nodes.now ≡ 144 }
    requires depths { length depths.now ≡ 144 }
    ensures { OnOk result (string_bytes text.new ≡ string_bytes text.old
        ++ stacks_text (images_in images.entry) nodes.now depths.now) }
{
    let rows = stack_rows(alloc, images, nodes, depths)?;
    push_headed(text, rows.as_str())
}

/// Adds rows behind the heads of their columns, if there are any.
fn push_headed(text: &mut String, rows: &str) -> Result<(), AllocError>
    ensures { OnOk result (string_bytes text.new ≡ string_bytes text.old ++ headed rows.now) }
{
    if rows.is_empty() {
        return Ok(());
    }
    write!(text, "node data/10 return/9  the fullest stacks\n{rows}")?;
    Ok(())
}

/// The rows of the ten nodes with the fullest stacks.
fn stack_rows(
    alloc: Global,
    images: Option<&Images>,
    nodes: &[NodeTurns],
    depths: &[StackDepths],
) -> Result<String, AllocError>
    requires nodes { length nodes.now ≡ 144 }
    requires depths { length depths.now ≡ 144 }
    ensures { IfOk result (λ rows. string_bytes rows
        ≡ stack_rows (images_in images.entry) nodes.now depths.now) }
{
    let all = all_fullness(alloc, nodes, depths)?;
    let full = all.as_slice();
    let mut rows = String::new(alloc);
    for rank in 0..10 {
        let index = ranked(full, rank);
        push_row_if(
            &mut rows,
            alloc,
            images,
            full[index],
            Node::at(index),
            &depths[index],
        )?;
    }
    Ok(rows)
}

/// Adds the row of a node, if one of its stacks had a word.
fn push_row_if(
    text: &mut String,
    alloc: Global,
    images: Option<&Images>,
    full: u64,
    node: Node,
    depths: &StackDepths,
) -> Result<(), AllocError>
    ensures { OnOk result (string_bytes text.new ≡ string_bytes text.old
        ++ stack_row_if (images_in images.entry) full node depths.now) }
{
    if full == 0 {
        return Ok(());
    }
    push_row(text, alloc, images, node, depths)
}

/// Adds the row of a node.
#[tactic(auto, unfolding(crate::specs::Stacks::stack_row))]
fn push_row(
    text: &mut String,
    alloc: Global,
    images: Option<&Images>,
    node: Node,
    depths: &StackDepths,
) -> Result<(), AllocError>
    ensures { OnOk result (string_bytes text.new ≡ string_bytes text.old
        ++ stack_row (images_in images.entry) node depths.now) }
{
    write!(text, "{node}")?;
    push_number(text, alloc, 9, depths.data_stack.most)?;
    push_number(text, alloc, 9, depths.return_stack.most)?;
    push_part(text, images, node, "  data", depths.data_stack.passed)?;
    push_part(text, images, node, "  return", depths.return_stack.passed)?;
    text.push_str("\n")
}

/// Adds that a stack with a name had no room, if so.
fn push_part(
    text: &mut String,
    images: Option<&Images>,
    node: Node,
    stack: &str,
    passed: Option<u16>,
) -> Result<(), AllocError>
    ensures { OnOk result (string_bytes text.new ≡ string_bytes text.old
        ++ passed_part (images_in images.entry) node stack.now passed) }
{
    let Some(address) = passed else {
        return Ok(());
    };
    text.push_str(stack)?;
    push_passed(text, images, node, address)
}

/// Adds where a stack had no room, with the label of the address.
fn push_passed(
    text: &mut String,
    images: Option<&Images>,
    node: Node,
    address: u16,
) -> Result<(), AllocError>
    ensures { OnOk result (string_bytes text.new ≡ string_bytes text.old
        ++ passed_text (images_in images.entry) node (Some address)) }
{
    let shown = Hex3::new(address % 0x400);
    write!(text, ", passed at {shown}")?;
    push_label(text, images, node, locate(address))?;
    Ok(())
}

/// How full the fuller stack of each node was, in order of name.
fn all_fullness(
    alloc: Global,
    nodes: &[NodeTurns],
    depths: &[StackDepths],
) -> Result<Vec<u64>, AllocError>
    requires nodes { length nodes.now ≡ 144 }
    requires depths { length depths.now ≡ 144 }
    ensures all { IfOk result (λ all. all.items ≡ all_fullness nodes.now depths.now) }
    ensures count { IfOk result (λ all. length all.items ≡ 144) }
{
    let mut all = Vec::new(alloc);
    for index in 0..144 {
        all.push(fullness_if(nodes[index].began, &depths[index]))?;
    }
    Ok(all)
}

/// The same of a node; 0 if it didn't begin.
fn fullness_if(began: Option<u64>, depths: &StackDepths) -> u64
    ensures { result ≡ spec.fullness_if began depths.now }
{
    match began {
        Some(_) => fullness(depths),
        None => 0,
    }
}

/// How full the fuller stack was, without fractions: most / room, times both rooms.
fn fullness(depths: &StackDepths) -> u64
    ensures { result ≡ spec.fullness depths.now }
{
    let of_data = depths.data_stack.most.saturating_mul(RETURN_ROOM);
    of_data.max(depths.return_stack.most.saturating_mul(DATA_ROOM))
}
