//! Words of memory.
ghost use Rattle.std.specs.Prelude.{◌≡◌, ◌+◌, ◌++◌, ◌∷◌, ◌<◌, [], IfOk, OnOk, if◌then◌else◌, length, string_bytes};
ghost use Rattle.ga_word.specs.Hex.{hex_digits};
ghost use Rattle.ga_debug.specs.Mem.{memory_shown, range_shown, word_shown};

use crate::address::Address;
use ga_dump::memory_text;
use ga_node::NodeState;
use ga_word::{Hex3, Word18};
use std::alloc::{AllocError, Global};
use std::fmt::Write;

/// The memory of a node, all of it for the count 0, or a number of words from an address on.
pub(crate) fn memory_shown(
    alloc: Global,
    state: &NodeState,
    from: Address,
    count: u32,
) -> Result<String, AllocError>
    ensures { IfOk result (λ text. string_bytes text ≡ memory_shown from count state.now) }
{
    if count == 0 {
        return memory_text(alloc, state);
    }
    range_shown(alloc, state.ram(), from.get(), count)
}

/// A number of words from an address on, but none behind the last one of memory.
#[tactic(auto, unfolding(crate::specs::Mem::range_shown))]
fn range_shown(alloc: Global, ram: &[Word18], from: u16, count: u32) -> Result<String, AllocError>
    requires { length ram.now ≡ 64 }
    ensures { IfOk result (λ text. string_bytes text ≡ range_shown from count ram.now) }
{
    let mut text = String::new(alloc);
    let most = count.min(64u32.saturating_sub(u32::from(from)));
    for index in 0..most {
        push_word(&mut text, ram, from, index as u16)?;
    }
    Ok(text)
}

/// Adds the word at an index of a range behind a blank, and in front of it, at the head of a line
/// of eight, its address.
fn push_word(text: &mut String, ram: &[Word18], from: u16, index: u16) -> Result<(), AllocError>
    requires ram { length ram.now ≡ 64 }
    requires within { from + index < 64 }
    ensures { OnOk result (string_bytes text.new
        ≡ string_bytes text.old ++ word_shown ram.now from index) }
{
    let address = from + index;
    if index % 8 == 0 {
        push_front(text, address, index > 0)?;
    }
    write!(text, " {}", ram[usize::from(address)])?;
    Ok(())
}

/// Adds the address at the head of a line, behind the end of the line before.
fn push_front(text: &mut String, address: u16, is_behind: bool) -> Result<(), AllocError>
    requires { address < 64 }
    ensures { OnOk result (string_bytes text.new ≡ string_bytes text.old
        ++ ((if is_behind then 10 ∷ [] else []) ++ hex_digits 3 address)) }
{
    let number = Hex3::new(address);
    if is_behind {
        text.push('\n')?;
    }
    write!(text, "{number}")?;
    Ok(())
}
