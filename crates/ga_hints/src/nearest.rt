//! The one of some names that is nearest to a word.
ghost use Rattle.std.specs.Prelude.{◌≡◌, IfOk, fold, map, option_map};
ghost use Rattle.std.specs.List.{find, list_any};
ghost use Rattle.std.specs.Str.{bytes_eq, str_eq_ignore_ascii_case};
ghost use Rattle.ga_expand.specs.Constants.{is_among};
ghost use Rattle.ga_nearest.specs.Nearest.{nothing_near};
ghost use Rattle.ga_hints.specs.Hints.{hint_of, nearest_hint};
ghost use Rattle.ga_hints.specs.Nearest.{nearer_name, nearest_of};

use crate::hint_kind::Hint;
use ga_nearest::Nearest;
use std::alloc::{AllocError, Global};

/// The one of some names that is nearest to a word, if one is near.
pub(crate) fn nearest_hint(
    alloc: Global,
    word: &str,
    names: &[&str],
) -> Result<Option<Hint>, AllocError>
    ensures { IfOk result (λ hint. option_map hint_of hint
        ≡ nearest_hint (map (λ name. name.now) names.now) word.now) }
{
    match nearest_of(alloc, word, names)? {
        Some(name) => Ok(Some(Hint::Nearest(String::from_str(alloc, name)?))),
        None => Ok(None),
    }
}

/// The name that is a word but for the case of its letters, or else the nearest one, if one is
/// near; or none if the word is a name itself.
fn nearest_of<'a>(
    alloc: Global,
    word: &'a str,
    names: &[&'a str],
) -> Result<Option<&'a str>, AllocError>
    ensures { IfOk result (λ name. option_map (λ name. name.now) name
        ≡ nearest_of word.now (map (λ name. name.now) names.now)) }
{
    if is_among(names, word) {
        return Ok(None);
    }
    if let Some(name) = recased(names, word) {
        return Ok(Some(name));
    }
    nearest_by_edits(alloc, word, names)
}

/// The name to which the fewest edits of a word lead, if one is near. None of one or two bytes is.
fn nearest_by_edits<'a>(
    alloc: Global,
    word: &'a str,
    names: &[&'a str],
) -> Result<Option<&'a str>, AllocError>
    ensures { IfOk result (λ name. option_map (λ name. name.now) name
        ≡ (fold nearer_name (nothing_near word.now) (map (λ name. name.now) names.now)).name) }
{
    let mut nearest = Nearest::to(word);
    for name in names {
        if name.len() > 2 {
            nearest.offer(alloc, *name)?;
        }
    }
    Ok(nearest.name())
}

/// The first of some names that is a word but for the case of ASCII letters.
fn recased<'a>(names: &[&'a str], word: &str) -> Option<&'a str>
    ensures { option_map (λ name. name.now) result
        ≡ find (str_eq_ignore_ascii_case word.now) (map (λ name. name.now) names.now) }
{
    names.iter().copied().find(|name| is_recased(word, *name))
}

/// Whether a word is a name but for the case of ASCII letters.
pub(crate) fn is_recased(word: &str, name: &str) -> bool
    ensures { result ≡ str_eq_ignore_ascii_case word.now name.now }
{
    word.eq_ignore_ascii_case(name)
}

/// Whether a word is one of some names.
pub(crate) fn is_among(names: &[&str], word: &str) -> bool
    ensures { result ≡ is_among (map (λ name. name.now) names.now) word.now }
{
    is_any(names, word)
}

fn is_any(names: &[&str], word: &str) -> bool
    ensures { result ≡ list_any (λ name. bytes_eq word.now name.now) names.now }
{
    names.iter().any(|name| word == *name)
}
