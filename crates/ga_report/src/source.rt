//! The source text of a page, with the numbers of its lines.
ghost use Rattle.std.specs.Prelude.{◌≡◌, ◌++◌, OnOk, string_bytes};
ghost use Rattle.ga_report.specs.Source.{numbered, numbered_lines, source_part};

use crate::escape::push_escaped;
use std::alloc::AllocError;
use std::fmt::Write;

/// Adds a source text, each line behind its number.
#[tactic(auto, unfolding(crate::specs::Source::source_part))]
pub(crate) fn push_source(text: &mut String, source: &str) -> Result<(), AllocError>
    ensures { OnOk result (string_bytes text.new
        ≡ string_bytes text.old ++ source_part source.now) }
{
    text.push_str("<h2>Source</h2>\n<pre class='source' tabindex='0' role='region' ")?;
    text.push_str("aria-label='Source'>")?;
    push_numbered(text, source)?;
    text.push_str("</pre>\n")
}

/// Adds the lines of a text, each behind its number.
fn push_numbered(text: &mut String, source: &str) -> Result<(), AllocError>
    ensures { OnOk result (string_bytes text.new
        ≡ string_bytes text.old ++ numbered_lines source.now) }
{
    for (index, line) in source.lines().enumerate() {
        push_line(text, index, line)?;
    }
    Ok(())
}

/// Adds a line behind its number, which is one more than how many lines are before it.
#[tactic(auto, unfolding(crate::specs::Source::numbered))]
fn push_line(text: &mut String, before: usize, line: &str) -> Result<(), AllocError>
    ensures { OnOk result (string_bytes text.new
        ≡ string_bytes text.old ++ numbered before line.now) }
{
    // in 128 bits one more has room
    let number = before as u128 + 1;
    write!(text, "{number}\t")?;
    push_escaped(text, line)?;
    text.push_str("\n")
}
