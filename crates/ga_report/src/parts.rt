//! Texts of several parts.
ghost use Rattle.std.specs.Prelude.{◌≡◌, ◌++◌, OnOk, string_bytes};
ghost use Rattle.ga_report.specs.inner.Parts.{parts_text};

use std::alloc::AllocError;

/// Adds some texts, one behind the other.
pub(crate) fn push_parts(text: &mut String, parts: &[&str]) -> Result<(), AllocError>
    ensures { OnOk result (string_bytes text.new
        ≡ string_bytes text.old ++ parts_text parts.now) }
{
    for part in parts {
        text.push_str(part)?;
    }
    Ok(())
}
