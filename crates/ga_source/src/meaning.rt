ghost use Rattle.std.specs.Prelude.{◌≡◌, ◌≤◌, IfOk, IfSome, length};
ghost use Rattle.std.specs.List.{list_all};
ghost use Rattle.std.specs.Option.{option_map};
ghost use Rattle.ga_pack.specs.Model.Token as model;
ghost use Rattle.ga_pack.specs.Model.Token.{label, name, node_name};
ghost use Rattle.ga_source.specs.inner.Meaning.{IsShort, meaning_of, token_of};

use ga_pack::SourceErrorKind;
use ga_place::Node;
use ga_word::{Op, Word18};
use std::str;

/// What a token means.
#[derive(Clone, Copy)]
pub(crate) enum Meaning<'a> {
    Op(Op),
    /// A number that a word holds.
    Number(Word18),
    /// A name that is not reserved.
    Name(&'a str),
    /// A name, reserved or not, that came before `:`.
    Label(&'a str),
    Node,
    /// The name of a node, behind `node`.
    NodeName(Node),
    Align,
    Data,
    OpenMark,
    CloseMark,
    Comma,
    Slash,
}

/// What a token means that is behind the token `node` or not. A token that is none of the language,
/// or a number over 3FFFF, is a fault anywhere.
#[tactic(auto, unfolding(ga_pack::specs::Model::Token::meaning_at))]
pub(crate) fn meaning_at(is_behind_node: bool, text: &[u8]) -> Result<Meaning<'_>, SourceErrorKind>
    ensures value { token_of result ≡ model.meaning_at is_behind_node text.now }
    ensures short { IfOk result (λ meaning. IsShort (meaning_of meaning)) }
{
    if is_behind_node {
        if let Some(node) = Node::from_digits(text) {
            return Ok(Meaning::NodeName(node));
        }
    }
    plain_meaning(text)
}

/// Whether no label may have a name, since it is an opcode's or a number's, or a word of the
/// language.
#[tactic(auto, unfolding(ga_pack::specs::Model::Token::is_reserved))]
pub(crate) fn is_reserved(name: &str) -> bool
    ensures { result ≡ model.is_reserved name.now }
{
    let name = name.as_bytes();
    Op::from_bytes(name).is_some() || number_named(name).is_some() || fixed(name).is_some()
}

/// What a token means that is no name of a node.
#[tactic(auto, unfolding(ga_pack::specs::Model::Token::meaning_of))]
fn plain_meaning(text: &[u8]) -> Result<Meaning<'_>, SourceErrorKind>
    ensures value { token_of result ≡ model.meaning_of text.now }
    ensures short { IfOk result (λ meaning. IsShort (meaning_of meaning)) }
{
    // A comma comes before each word of data.
    if text == b",".as_slice() {
        return Ok(Meaning::Comma);
    }
    // Most numbers are hex, and nothing else begins with `$`.
    if let Some(number) = hex_numeral(text) {
        return ranged(number);
    }
    if let Some(op) = Op::from_bytes(text) {
        return Ok(Meaning::Op(op));
    }
    if let Some(number) = number_named(text) {
        return Ok(Meaning::Number(number));
    }
    if let Some(meaning) = fixed(text) {
        return Ok(meaning);
    }
    if let Some(number) = numeral(10, text) {
        return ranged(number);
    }
    if let Some(name) = label_name(text) {
        return Ok(Meaning::Label(name));
    }
    match name_in(text) {
        Some(name) => Ok(Meaning::Name(name)),
        None => Err(SourceErrorKind::BadToken),
    }
}

/// A number by its name: the port of a side, io, the ports of all sides, or the warm word.
fn number_named(text: &[u8]) -> Option<Word18>
    ensures { result ≡ model.number_named text.now }
{
    Word18::new(address_named(text)?)
}

fn address_named(text: &[u8]) -> Option<u32>
    ensures { result ≡ model.number_named text.now }
{
    let address = match text {
        b"right" => 0x1D5,
        b"down" => 0x115,
        b"left" => 0x175,
        b"up" => 0x145,
        b"io" => 0x15D,
        b"rdlu" => 0x1A5,
        b"warm" => 0x0A9,
        _ => return None,
    };
    Some(address)
}

/// A word or a mark with a meaning of its own.
#[inline(always)]
fn fixed<'a>(text: &[u8]) -> Option<Meaning<'a>>
    ensures value { option_map meaning_of result ≡ model.as_fixed text.now }
    ensures short { IfSome result (λ meaning. IsShort (meaning_of meaning)) }
{
    let meaning = match text {
        b"node" => Meaning::Node,
        b"align" => Meaning::Align,
        b"data" => Meaning::Data,
        b"[" => Meaning::OpenMark,
        b"]" => Meaning::CloseMark,
        b"," => Meaning::Comma,
        b"/" => Meaning::Slash,
        _ => return None,
    };
    Some(meaning)
}

/// A number, which a word has to hold.
fn ranged<'a>(number: u32) -> Result<Meaning<'a>, SourceErrorKind>
    ensures value { token_of result ≡ model.ranged number }
    ensures short { IfOk result (λ meaning. IsShort (meaning_of meaning)) }
{
    match Word18::new(number) {
        Some(number) => Ok(Meaning::Number(number)),
        None => Err(SourceErrorKind::NumberRange),
    }
}

/// The number that one to eight digits write.
fn numeral(radix: u32, digits: &[u8]) -> Option<u32>
    requires { (2 ≤ radix) × (radix ≤ 16) }
    ensures { result ≡ model.numeral radix digits.now }
{
    if digits.is_empty() || digits.len() > 8 {
        return None;
    }
    let mut number = 0;
    for byte in digits {
        let digit = char::from(*byte).to_digit(radix)?;
        number = number * radix + digit;
    }
    Some(number)
}

/// The number that `$` and hex digits write.
fn hex_numeral(text: &[u8]) -> Option<u32>
    ensures { option_map model.ranged result ≡ model.as_hex text.now }
{
    let (first, digits) = text.split_first()?;
    if *first != b'$' {
        return None;
    }
    numeral(16, digits)
}

/// The name before `:`.
fn label_name(text: &[u8]) -> Option<&str>
    ensures value { option_map (λ name. label name.now) result ≡ model.as_label text.now }
    ensures short { IfSome result (λ name. length name.now ≤ 16) }
{
    let (last, name) = text.split_last()?;
    if *last != b':' {
        return None;
    }
    name_in(name)
}

/// A text that is a name, reserved or not.
fn name_in(text: &[u8]) -> Option<&str>
    ensures value { option_map (λ found. name found.now) result ≡ model.as_name text.now }
    ensures short { IfSome result (λ name. length name.now ≤ 16) }
{
    if !is_name(text) {
        return None;
    }
    // A name is ASCII.
    Some(unsafe { str::from_utf8_unchecked(text) })
}

/// One to sixteen letters and digits, the first no digit.
fn is_name(text: &[u8]) -> bool
    ensures { result ≡ model.is_name text.now }
{
    match text.split_first() {
        Some((first, rest)) => {
            is_letter(*first) && rest.len() < 16 && are_letters_or_digits(rest)
        }
        None => false,
    }
}

fn are_letters_or_digits(text: &[u8]) -> bool
    ensures { result ≡ list_all model.is_letter_or_digit text.now }
{
    text.iter().all(|byte| is_letter_or_digit(*byte))
}

/// An ASCII letter or `_`.
fn is_letter(byte: u8) -> bool
    ensures { result ≡ model.is_letter byte }
{
    matches!(byte, b'A'..=b'Z' | b'a'..=b'z' | b'_')
}

fn is_letter_or_digit(byte: u8) -> bool
    ensures { result ≡ model.is_letter_or_digit byte }
{
    is_letter(byte) || byte.is_ascii_digit()
}
