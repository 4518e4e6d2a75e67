//! What a step changed.
ghost use Rattle.std.specs.Prelude.{◌≡◌, ◌++◌, ◌<◌, ◌^◌, OnOk, length, string_bytes};
ghost use Rattle.ga_trace.specs.Line.{b_change, carry_change, changes, other_changes, ram_change, ram_changes, stack_changes, word_change};

use ga_node::NodeState;
use ga_word::{Hex3, Word18};
use std::alloc::AllocError;
use std::fmt::Write;

/// Adds the registers that changed, all but P, and the words of memory that did.
#[tactic(auto, unfolding(crate::specs::Line::changes))]
pub(crate) fn push_changes(
    text: &mut String,
    old: &NodeState,
    new: &NodeState,
) -> Result<(), AllocError>
    ensures { OnOk result (string_bytes text.new
        ≡ string_bytes text.old ++ changes old.now new.now) }
{
    push_stack(text, old, new)?;
    push_other(text, old, new)?;
    push_ram(text, old.ram(), new.ram())?;
    Ok(())
}

/// Adds the registers of the stacks that changed.
fn push_stack(text: &mut String, old: &NodeState, new: &NodeState) -> Result<(), AllocError>
    ensures { OnOk result (string_bytes text.new
        ≡ string_bytes text.old ++ stack_changes old.now new.now) }
{
    push_word(text, "T", old.t(), new.t())?;
    push_word(text, "S", old.s(), new.s())?;
    push_word(text, "R", old.r(), new.r())?;
    Ok(())
}

/// Adds the other registers that changed, all but P.
fn push_other(text: &mut String, old: &NodeState, new: &NodeState) -> Result<(), AllocError>
    ensures { OnOk result (string_bytes text.new
        ≡ string_bytes text.old ++ other_changes old.now new.now) }
{
    push_word(text, "A", old.a(), new.a())?;
    push_b(text, old.b(), new.b())?;
    push_carry(text, old.carry(), new.carry())?;
    push_word(text, "io", old.io(), new.io())?;
    Ok(())
}

/// Adds a register that changed.
fn push_word(text: &mut String, name: &str, old: Word18, new: Word18) -> Result<(), AllocError>
    ensures { OnOk result (string_bytes text.new
        ≡ string_bytes text.old ++ word_change name.now old new) }
{
    if old != new {
        write!(text, "  {name} {new}")?;
    }
    Ok(())
}

fn push_b(text: &mut String, old: u16, new: u16) -> Result<(), AllocError>
    requires { new < 2 ^ 9 }
    ensures { OnOk result (string_bytes text.new ≡ string_bytes text.old ++ b_change old new) }
{
    if old != new {
        let new = Hex3::new(new);
        write!(text, "  B {new}")?;
    }
    Ok(())
}

fn push_carry(text: &mut String, old: bool, new: bool) -> Result<(), AllocError>
    ensures { OnOk result (string_bytes text.new ≡ string_bytes text.old ++ carry_change old new) }
{
    match (old, new) {
        (true, false) => text.push_str("  C 0"),
        (false, true) => text.push_str("  C 1"),
        _ => Ok(()),
    }
}

/// Adds the words of memory that changed.
fn push_ram(text: &mut String, old: &[Word18], new: &[Word18]) -> Result<(), AllocError>
    requires old { length old.now ≡ 64 }
    requires new { length new.now ≡ 64 }
    ensures { OnOk result (string_bytes text.new ≡ string_bytes text.old
        ++ ram_changes old.now new.now) }
{
    for index in 0..64 {
        push_ram_word(text, index, old, new)?;
    }
    Ok(())
}

/// Adds a word of memory, if it changed.
fn push_ram_word(
    text: &mut String,
    index: u16,
    old: &[Word18],
    new: &[Word18],
) -> Result<(), AllocError>
    requires index { index < 64 }
    requires old { length old.now ≡ 64 }
    requires new { length new.now ≡ 64 }
    ensures { OnOk result (string_bytes text.new ≡ string_bytes text.old
        ++ ram_change old.now new.now index) }
{
    let word = new[usize::from(index)];
    if old[usize::from(index)] != word {
        let address = Hex3::new(index);
        write!(text, "  {address} {word}")?;
    }
    Ok(())
}
