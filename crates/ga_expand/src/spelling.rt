//! How a token of an expansion is written.
ghost use Rattle.std.specs.Prelude.{◌≡◌, Ok, None};
ghost use Rattle.std.specs.List.{list_all};
ghost use Rattle.std.specs.Option.{option_map_or};
ghost use Rattle.ga_expand.specs.Constants.{constant_named, constant_word};
ghost use Rattle.ga_expand.specs.Expanding as model;
ghost use Rattle.ga_expand.specs.inner.Constants.{constants_in};
ghost use Rattle.ga_expand.specs.inner.Piece.{text_of, word_in};
ghost use Rattle.ga_expand.specs.inner.Plain.{is_plain_byte};

use crate::constants::Constants;
use crate::error::ExpandErrorKind;
use crate::literal::literal;
use ga_word::Word18;

/// How a token of an expansion is written.
#[derive(Clone, Copy)]
pub(crate) enum Spelling<'a> {
    /// By these bytes of the text that is expanded.
    Same(&'a [u8]),
    /// By `$` and five hex digits.
    Number(Word18),
}

/// What a token of the plain text expands to.
#[tactic(auto, unfolding(crate::specs::Expanding::word_of))]
pub(crate) fn spell<'a>(
    constants: &Constants,
    text: &'a [u8],
) -> Result<Spelling<'a>, ExpandErrorKind>
    ensures { word_in result ≡ model.word_of (constants_in constants.now.values.entries)
        text.now }
{
    if is_plain(text) {
        return Ok(spell_plain(constants, text));
    }
    match literal(text) {
        Ok(Some(number)) => Ok(Spelling::Number(number)),
        Ok(None) => named_or_same(constants, text),
        Err(kind) => Err(kind),
    }
}

/// Whether a token has no character of a form that the plain language lacks.
fn is_plain(text: &[u8]) -> bool
    ensures { result ≡ list_all is_plain_byte text.now }
{
    text.iter().all(|byte| is_plain_byte(*byte))
}

fn is_plain_byte(byte: u8) -> bool
    ensures { result ≡ is_plain_byte byte }
{
    byte < 128 && !matches!(byte, b'-' | b'%' | b'\'' | b'|')
}

/// The number of a constant, or a token of ASCII as it is.
fn spell_plain<'a>(constants: &Constants, text: &'a [u8]) -> Spelling<'a>
    ensures { text_of result
        ≡ option_map_or (λ constant. model.number_text (constant_word constant))
        (constant_named (constants_in constants.now.values.entries) text.now) text.now }
{
    match constants.named(text) {
        Some(constant) => Spelling::Number(constant.word()),
        None => Spelling::Same(text),
    }
}

/// The number of a constant, or the token as it is.
fn named_or_same<'a>(constants: &Constants, text: &'a [u8]) -> Result<Spelling<'a>, ExpandErrorKind>
    ensures { word_in result ≡ model.word_by (constants_in constants.now.values.entries) text.now
        (Ok None) }
{
    match constants.named(text) {
        Some(constant) => Ok(Spelling::Number(constant.word())),
        None => same(text),
    }
}

/// A token that stays as it is.
fn same(text: &[u8]) -> Result<Spelling<'_>, ExpandErrorKind>
    ensures { word_in result ≡ model.same_or None text.now }
{
    if is_ascii(text) {
        Ok(Spelling::Same(text))
    } else {
        Err(ExpandErrorKind::BadToken)
    }
}

fn is_ascii(text: &[u8]) -> bool
    ensures { result ≡ model.is_ascii text.now }
{
    text.iter().all(|byte| *byte < 128)
}
