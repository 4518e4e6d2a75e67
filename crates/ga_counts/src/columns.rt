//! The columns of counts.
ghost use Rattle.std.specs.Prelude.{◌≡◌, ◌++◌, IfOk, OnOk, replicate, string_bytes};
ghost use Rattle.std.specs.Fmt.{decimal};
ghost use Rattle.ga_counts.specs.Columns as spec;
ghost use Rattle.ga_counts.specs.Columns.{HEAD, cell, count_text, counts_text, mark_text, slot_text, slots_text};

use crate::word_counts::WordCounts;
use std::alloc::{AllocError, Global};

/// Adds the heads of the columns.
#[tactic(auto, unfolding(crate::specs::Columns::HEAD))]
pub(crate) fn push_head(text: &mut String) -> Result<(), AllocError>
    ensures { OnOk result (string_bytes text.new ≡ string_bytes text.old ++ HEAD) }
{
    text.push_str("  fetches  slot0  slot1  slot2  slot3  at   word    line  kind      reading\n")
}

/// Adds the columns of a word with this many opcodes.
#[tactic(auto, unfolding(crate::specs::Columns::counts_text))]
pub(crate) fn push_counts(
    text: &mut String,
    alloc: Global,
    counts: &WordCounts,
    opcodes: usize,
    is_hot: bool,
) -> Result<(), AllocError>
    ensures { OnOk result (string_bytes text.new
        ≡ string_bytes text.old ++ counts_text counts.now opcodes is_hot) }
{
    text.push_str(mark_text(is_hot))?;
    push_cell(text, 8, count_text(alloc, counts.fetches)?.as_str())?;
    push_slots(text, alloc, counts, opcodes)
}

/// A star for a hot line.
fn mark_text(is_hot: bool) -> &'static str
    ensures { result.now ≡ mark_text is_hot }
{
    if is_hot { "*" } else { " " }
}

/// Adds the counts of the slots of a word with this many opcodes.
#[tactic(auto, unfolding(crate::specs::Columns::slots_text))]
fn push_slots(
    text: &mut String,
    alloc: Global,
    counts: &WordCounts,
    opcodes: usize,
) -> Result<(), AllocError>
    ensures { OnOk result (string_bytes text.new
        ≡ string_bytes text.old ++ slots_text counts.now opcodes) }
{
    let fetches = counts.fetches;
    push_slot(text, alloc, fetches, counts.slot0, opcodes > 0)?;
    push_slot(text, alloc, fetches, counts.slot1, opcodes > 1)?;
    push_slot(text, alloc, fetches, counts.slot2, opcodes > 2)?;
    push_slot(text, alloc, fetches, counts.slot3, opcodes > 3)
}

/// Adds how often the opcode of a slot ran.
fn push_slot(
    text: &mut String,
    alloc: Global,
    fetches: u64,
    ran: u64,
    has_opcode: bool,
) -> Result<(), AllocError>
    ensures { OnOk result (string_bytes text.new
        ≡ string_bytes text.old ++ cell 7 (slot_text fetches ran has_opcode)) }
{
    let shown = slot_text(alloc, fetches, ran, has_opcode)?;
    push_cell(text, 7, shown.as_str())
}

/// How often the opcode of a slot ran, if its word has one there and was fetched more or less
/// often.
fn slot_text(alloc: Global, fetches: u64, ran: u64, has_opcode: bool) -> Result<String, AllocError>
    ensures { IfOk result (λ text. string_bytes text ≡ slot_text fetches ran has_opcode) }
{
    if has_opcode && ran != fetches {
        count_text(alloc, ran)
    } else {
        Ok(String::new(alloc))
    }
}

/// A count, or a dot for none.
fn count_text(alloc: Global, count: u64) -> Result<String, AllocError>
    ensures { IfOk result (λ text. string_bytes text ≡ spec.count_text count) }
{
    if count == 0 {
        String::from_str(alloc, ".")
    } else {
        format!(in alloc; "{count}")
    }
}

/// Adds a number at the right of a column.
pub(crate) fn push_number(
    text: &mut String,
    alloc: Global,
    width: usize,
    number: u128,
) -> Result<(), AllocError>
    ensures { OnOk result (string_bytes text.new
        ≡ string_bytes text.old ++ cell width (decimal number)) }
{
    let shown = format!(in alloc; "{number}")?;
    push_cell(text, width, shown.as_str())
}

/// Adds a text at the right of a column, behind at least one blank.
#[tactic(auto, unfolding(crate::specs::Columns::cell))]
fn push_cell(text: &mut String, width: usize, shown: &str) -> Result<(), AllocError>
    ensures { OnOk result (string_bytes text.new
        ≡ string_bytes text.old ++ cell width shown.now) }
{
    push_blanks(text, width.saturating_sub(shown.len()).max(1))?;
    text.push_str(shown)?;
    Ok(())
}

/// Adds blanks.
fn push_blanks(text: &mut String, count: usize) -> Result<(), AllocError>
    ensures { OnOk result (string_bytes text.new
        ≡ string_bytes text.old ++ replicate count 32) }
{
    for _done in 0..count {
        text.push_str(" ")?;
    }
    Ok(())
}
