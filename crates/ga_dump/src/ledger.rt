ghost use Rattle.std.specs.Prelude.{◌≡◌, ◌++◌, IfOk, OnOk, string_bytes};
ghost use Rattle.ga_dump.specs.Ledger.{ledger_dump, side_line};

use crate::side::side_name;
use ga_chip::Chip;
use ga_place::{Node, SIDES, Side, neighbour};
use std::alloc::{AllocError, Global};
use std::fmt::Write;

/// The numbers of the cells that a node writes as text: for each side at which it has a neighbour,
/// in the order right, down, left, up, a line of its name, the side, and how many words were
/// written, were read and are pending there. Fails only when out of memory.
#[tactic(auto, unfolding(crate::specs::Ledger::ledger_dump))]
pub fn ledger_text(alloc: Global, chip: &Chip, node: Node) -> Result<String, AllocError>
    ensures { IfOk result (λ text. string_bytes text ≡ ledger_dump chip.now node) }
{
    let mut text = String::new(alloc);
    for side in SIDES {
        push_side(&mut text, chip, node, side)?;
    }
    Ok(text)
}

/// The line of a side, if the node has a neighbour there.
#[tactic(auto, unfolding(crate::specs::Ledger::ledger_line, crate::specs::Ledger::side_line))]
fn push_side(text: &mut String, chip: &Chip, node: Node, side: Side) -> Result<(), AllocError>
    ensures { OnOk result (string_bytes text.new
        ≡ string_bytes text.old ++ side_line chip.now node side) }
{
    if neighbour(node, side).is_none() {
        return Ok(());
    }
    let ledger = chip.ledger(node, side);
    write!(
        text,
        "{node} {} written {}",
        side_name(side),
        ledger.written
    )?;
    writeln!(text, " read {} pending {}", ledger.read, ledger.pending)?;
    Ok(())
}
