//! Texts as they are written in a page.
ghost use Rattle.std.specs.Prelude.{◌≡◌, ◌++◌, OnOk, string_bytes};
ghost use Rattle.ga_report.specs.Escape as spec;
ghost use Rattle.ga_report.specs.Escape.{escaped, escaped_char};

use ga_messages::shown_char;
use std::alloc::AllocError;

/// Adds a text as it is written in a page.
#[tactic(auto, unfolding(crate::specs::Escape::escaped))]
pub(crate) fn push_escaped(text: &mut String, shown: &str) -> Result<(), AllocError>
    ensures { OnOk result (string_bytes text.new ≡ string_bytes text.old ++ escaped shown.now) }
{
    for character in shown.chars() {
        push_character(text, character)?;
    }
    Ok(())
}

/// Adds a character as it is written in a page.
fn push_character(text: &mut String, character: char) -> Result<(), AllocError>
    ensures { OnOk result (string_bytes text.new
        ≡ string_bytes text.old ++ escaped_char character) }
{
    match character {
        '&' => text.push_str("&amp;"),
        '<' => text.push_str("&lt;"),
        '>' => text.push_str("&gt;"),
        '"' => text.push_str("&quot;"),
        _ => text.push(drawn(character)),
    }
}

/// A character as a page shows it: as a blank if it isn't drawn, as everywhere. XML lacks two.
fn drawn(character: char) -> char
    ensures { result ≡ spec.drawn character }
{
    match character {
        '\n' => character,
        '\u{FFFE}' | '\u{FFFF}' => '\u{FFFD}',
        _ => shown_char(character),
    }
}
