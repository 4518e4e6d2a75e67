ghost use Rattle.std.specs.Prelude.{◌≡◌, ◌<◌, ◌++◌, IfOk, OnOk, length, string_bytes};
ghost use Rattle.ga_dump.specs.Memory.{memory_dump, memory_row};

use crate::row::{ROW_LENGTH, push_row, text_of};
use ga_node::NodeState;
use ga_word::{Word18, hex5};
use std::alloc::{AllocError, Global};

/// A node's memory as text: eight lines, each of the address of its first word in three hex digits
/// and eight words in five, with one space between. Fails only when out of memory.
#[tactic(auto, unfolding(crate::specs::Memory::memory_dump), using(crate::proofs::Lines::next_line))]
pub fn memory_text(alloc: Global, state: &NodeState) -> Result<String, AllocError>
    ensures { IfOk result (λ text. string_bytes text ≡ memory_dump state.now) }
{
    let ram = state.ram();
    let mut text = Vec::with_capacity(alloc, 8 * (3 + ROW_LENGTH))?;
    for row in 0..8 {
        push_memory_row(&mut text, ram, row)?;
    }
    Ok(text_of(text))
}

/// One of the eight lines, counted from 0.
fn push_memory_row(text: &mut Vec<u8>, ram: &[Word18], row: usize) -> Result<(), AllocError>
    requires row { row < 8 }
    requires ram { length ram.now ≡ 64 }
    ensures { OnOk result (text.new.items ≡ text.old.items ++ memory_row ram.now row) }
{
    let at = 8 * row;
    let address = Word18::new(at as u32).unwrap();
    // an address has as many digits as a word's last three
    text.extend_from_slice(&hex5(address)[2..])?;
    push_row(text, &ram[at..at + 8])?;
    Ok(())
}
