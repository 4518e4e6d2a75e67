//! Values that are expected of a node.
ghost use Rattle.std.specs.Prelude.{◌≡◌, ◌++◌, ◌+◌, IfOk, OnOk, string_bytes};
ghost use Rattle.ga_debug.specs.Expect.{expected_text, next_what, shown_text, shows, values_text};

use ga_chip::Chip;
use ga_place::Node;
use ga_trace::{Value, What, value_of};
use std::alloc::{AllocError, Global};
use std::fmt::Write;

/// `ok`, or the values that are expected and those that a node shows.
#[tactic(auto, unfolding(crate::specs::Expect::expected_text))]
pub(crate) fn expected_text(
    alloc: Global,
    chip: &Chip,
    node: Node,
    what: What,
    values: &[Option<Value>],
) -> Result<String, AllocError>
    ensures { IfOk result (λ text. string_bytes text
        ≡ expected_text node what values.now chip.now) }
{
    let mut text = String::new(alloc);
    if shows(chip, node, what, values) {
        text.push_str("ok")?;
        return Ok(text);
    }
    text.push_str("expected")?;
    push_values(&mut text, values)?;
    text.push_str(", is")?;
    push_shown(&mut text, chip, node, what, values)?;
    Ok(text)
}

/// Whether a node shows some values, one after another.
fn shows(chip: &Chip, node: Node, what: What, values: &[Option<Value>]) -> bool
    ensures { result ≡ shows node what values.now chip.now }
{
    let mut here = what;
    for value in values {
        let Some(value) = value else {
            return true;
        };
        if !value.is(&value_of(chip, node, here)) {
            return false;
        }
        here = next_what(here);
    }
    true
}

/// What has the value behind this one.
fn next_what(what: What) -> What
    ensures { result ≡ next_what what }
{
    match what {
        What::Memory(address) if address < 0x1FF => What::Memory(address + 1),
        _ => what,
    }
}

/// Adds the values that are expected, each behind a blank.
fn push_values(text: &mut String, values: &[Option<Value>]) -> Result<(), AllocError>
    ensures { OnOk result (string_bytes text.new
        ≡ string_bytes text.old ++ values_text values.now) }
{
    for value in values {
        let Some(value) = value else {
            return Ok(());
        };
        write!(text, " {value}")?;
    }
    Ok(())
}

/// Adds the values that are shown in their place, each behind a blank.
fn push_shown(
    text: &mut String,
    chip: &Chip,
    node: Node,
    what: What,
    values: &[Option<Value>],
) -> Result<(), AllocError>
    ensures { OnOk result (string_bytes text.new
        ≡ string_bytes text.old ++ shown_text node what values.now chip.now) }
{
    let mut what = what;
    for value in values {
        if value.is_none() {
            return Ok(());
        }
        write!(text, " {}", value_of(chip, node, what))?;
        what = next_what(what);
    }
    Ok(())
}
