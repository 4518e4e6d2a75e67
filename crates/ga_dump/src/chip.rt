ghost use Rattle.std.specs.Prelude.{◌≡◌, ◌++◌, IfOk, OnOk, string_bytes};
ghost use Rattle.ga_chip.specs.Chip.{state_of};
ghost use Rattle.ga_dump.specs.Chip.{chip_dump, whole_node};

use crate::ledger::ledger_text;
use crate::memory::memory_text;
use crate::node::node_text;
use ga_chip::Chip;
use ga_place::Node;
use std::alloc::{AllocError, Global};

/// All nodes as text, in order of name: each with its stacks, its memory and the numbers of the
/// cells that it writes. Fails only when out of memory.
pub fn chip_text(alloc: Global, chip: &Chip) -> Result<String, AllocError>
    ensures { IfOk result (λ text. string_bytes text ≡ chip_dump chip.now) }
{
    let mut text = String::new(alloc);
    for index in 0..144 {
        push_node(&mut text, alloc, chip, Node::at(index))?;
    }
    Ok(text)
}

/// One of the nodes.
fn push_node(text: &mut String, alloc: Global, chip: &Chip, node: Node) -> Result<(), AllocError>
    ensures { OnOk result (string_bytes text.new
        ≡ string_bytes text.old ++ whole_node chip.now node (state_of chip.now node)) }
{
    let state = chip.state(node);
    text.push_str(&node_text(alloc, state)?)?;
    text.push_str(&memory_text(alloc, state)?)?;
    text.push_str(&ledger_text(alloc, chip, node)?)?;
    Ok(())
}
