//! The address of several ports at once.
ghost use Rattle.std.specs.Prelude.{◌≡◌, ◌==◌, if◌then◌else◌};
ghost use Rattle.std.specs.List.{list_all, list_any, slice_split};
ghost use Rattle.std.specs.Str.{bytes_eq};
ghost use Rattle.ga_expand.specs.Sides as model;

use ga_word::Word18;

/// The address of the ports of two or more sides, with `|` between their names.
pub(crate) fn sides(text: &[u8]) -> Option<Word18>
    ensures { result ≡ model.as_sides text.now }
{
    if !has_bar(text) || !are_sides(text) {
        return None;
    }
    let bits = bit(text, b"right", 0x80)
        + bit(text, b"down", 0x40)
        + bit(text, b"left", 0x20)
        + bit(text, b"up", 0x10);
    Word18::new(0x155 ^ bits)
}

/// The address of the ports that one or the other of two addresses has.
pub(crate) fn ports_of_both(one: u32, other: u32) -> u32
    ensures { result ≡ model.ports_of_both one other }
{
    0x155 ^ ((0x155 ^ one) | (0x155 ^ other))
}

fn has_bar(text: &[u8]) -> bool
    ensures { result ≡ list_any (λ c. c == 124) text.now }
{
    text.iter().any(|byte| *byte == b'|')
}

/// Whether all that is between `|` are names of sides.
fn are_sides(text: &[u8]) -> bool
    ensures { result ≡ list_all model.is_side (slice_split (λ c. c == 124) text.now) }
{
    text.split(|byte| *byte == b'|').all(|part| is_side(part))
}

/// Whether a text is the name of a side.
pub(crate) fn is_side(text: &[u8]) -> bool
    ensures { result ≡ model.is_side text.now }
{
    matches!(text, b"right" | b"down" | b"left" | b"up")
}

/// A bit, if a name is among those between `|`.
fn bit(text: &[u8], name: &[u8], bit: u32) -> u32
    ensures { result ≡ (if list_any (λ part. bytes_eq part name.now)
        (slice_split (λ c. c == 124) text.now) then bit else 0) }
{
    if has(text, name) { bit } else { 0 }
}

fn has(text: &[u8], name: &[u8]) -> bool
    ensures { result ≡ list_any (λ part. bytes_eq part name.now)
        (slice_split (λ c. c == 124) text.now) }
{
    text.split(|byte| *byte == b'|').any(|part| part == name)
}
