//! Constants, their names and their values.
ghost use Rattle.std.specs.Prelude.{◌≡◌, ◌≢◌, ◌++◌, ◌∷◌, ℕ, [], IfErr, None, OnOk, codes, option_map, Ok, if◌then◌else◌, Some, false, true};
ghost use Rattle.std.specs.List.{list_all};
ghost use Rattle.std.specs.Option.{is_some};
ghost use Rattle.std.specs.Str.{bytes_eq};
ghost use Rattle.ga_pack.specs.Model.Token as plain;
ghost use Rattle.ga_pack.specs.Model.Token.{is_name};
ghost use Rattle.ga_expand.specs.Constants as model;
ghost use Rattle.ga_expand.specs.Expression.{form_of, plain_number, plain_operand, value_of, value_within};
ghost use Rattle.ga_expand.specs.declared.error.ExpandErrorKind.TheVariants.{Memory};
ghost use Rattle.ga_expand.specs.inner.Constants.{are_free, constants_in};

use crate::error::ExpandErrorKind;
use crate::expression::{behind_sign, inside, parted};
use crate::literal::{digits_or_character, numeral};
use crate::sides::{is_side, sides};
use crate::value::Operand;
use ga_source::Name;
use ga_word::{Op, Word18};
use indexmap::IndexMap;
use std::alloc::Global;
use std::str;

/// The constants so far, in their order.
#[derive(Drop)]
pub(crate) struct Constants {
    values: IndexMap<Name, Operand>,
    ghost free: { are_free values.entries ≡ true },
}

impl Constants {
    pub(crate) fn new(alloc: Global) -> Self
        ensures { result.values.entries ≡ [] }
    {
        Constants {
            values: IndexMap::new(alloc),
        }
    }

    /// The value of the constant that a token names.
    pub(crate) fn named(&self, text: &[u8]) -> Option<Operand>
        ensures { result ≡ model.constant_named (constants_in self.now.values.entries) text.now }
    {
        if self.values.is_empty() {
            return None;
        }
        self.constant_of(name_in(text)?)
    }

    /// The value of the constant with a name.
    fn constant_of(&self, name: Name) -> Option<Operand>
        ensures { result ≡ model.constant_of (constants_in self.now.values.entries) name.bytes }
    {
        self.values.get(&name).copied()
    }

    /// Whether a constant has a name.
    pub(crate) fn has(&self, name: Name) -> bool
        ensures { result ≡ is_some (model.constant_of (constants_in self.now.values.entries)
            name.bytes) }
    {
        self.constant_of(name).is_some()
    }

    /// Whether a token defines a label with the name of a constant.
    pub(crate) fn has_label(&self, text: &[u8]) -> bool
        ensures { result ≡ model.is_taken_label (constants_in self.now.values.entries) text.now }
    {
        match label_defined(text) {
            Some(name) => self.named(name).is_some(),
            None => false,
        }
    }

    /// Adds a constant.
    pub(crate) fn define(&mut self, name: Name, value: Operand) -> Result<(), ExpandErrorKind>
        requires new { model.constant_of (constants_in self.old.values.entries) name.bytes ≡ None }
        requires free { plain.is_reserved name.bytes ≡ false }
        ensures ok { OnOk result (constants_in self.new.values.entries
            ≡ constants_in self.old.values.entries ++ (name.bytes, value) ∷ []) }
        ensures err { IfErr result (λ kind. kind ≡ Memory) }
    {
        self.values.insert(name, value)?;
        Ok(())
    }

    /// The value of a constant that a token writes: in a form of either language, as the name of a
    /// constant, or as an expression of at most 64 levels.
    #[tactic(auto, unfolding(crate::specs::Expression::value_of))]
    pub(crate) fn value(&self, text: &[u8]) -> Result<Operand, ExpandErrorKind>
        ensures { result ≡ value_of (constants_in self.now.values.entries) text.now }
    {
        self.value_within(64, text)?.as_constant()
    }

    /// The value of an expression of at most this many levels.
    fn value_within(&self, levels: u32, text: &[u8]) -> Result<Operand, ExpandErrorKind>
        ensures { result ≡ value_within levels (constants_in self.now.values.entries) text.now }
    {
        if levels == 0 {
            return Err(ExpandErrorKind::BadToken);
        }
        if let Some(operand) = form_of(text) {
            return Ok(operand);
        }
        if let Some(parting) = parted(text) {
            let left = self.value_within(levels - 1, parting.left_of(text));
            let right = self.value_within(levels - 1, parting.right_of(text));
            return parting.operator.applied(left, right);
        }
        if let Some(within) = inside(text) {
            return self.value_within(levels - 1, within);
        }
        match behind_sign(text) {
            Some(operand) => self.value_within(levels - 1, operand)?.negated(),
            None => self.plain_operand(text),
        }
    }

    /// The value of the constant with this name, or a number in the plain language.
    fn plain_operand(&self, text: &[u8]) -> Result<Operand, ExpandErrorKind>
        ensures { result ≡ plain_operand (constants_in self.now.values.entries) text.now }
    {
        match self.named(text) {
            Some(constant) => Ok(constant),
            None => plain_number(text),
        }
    }
}

/// A number in the plain language.
fn plain_number(text: &[u8]) -> Result<Operand, ExpandErrorKind>
    ensures { result ≡ plain_number text.now }
{
    let word = in_range(number(text))?;
    Ok(Operand::new(word, names_ports(text)))
}

/// An operand of a form that the plain language lacks: binary digits, a character, or several
/// sides.
fn form_of(text: &[u8]) -> Option<Operand>
    ensures { result ≡ form_of text.now }
{
    match digits_or_character(text) {
        Some(word) => Some(Operand::new(word, false)),
        None => Some(Operand::new(sides(text)?, true)),
    }
}

/// A number as a word.
fn in_range(number: Option<u32>) -> Result<Word18, ExpandErrorKind>
    ensures { result ≡ model.in_range number }
{
    match number {
        Some(number) => Word18::new(number).ok_or(ExpandErrorKind::NumberRange),
        None => Err(ExpandErrorKind::BadToken),
    }
}

/// Whether a token is the address of ports by a name: that of a side, or that of all four.
fn names_ports(text: &[u8]) -> bool
    ensures { result ≡ model.names_ports text.now }
{
    is_side(text) || text == b"rdlu".as_slice()
}

/// The label that a token defines: what is in front of the colon with which it ends.
fn label_defined(text: &[u8]) -> Option<&[u8]>
    ensures { option_map (λ name. name.now) result ≡ model.label_defined text.now }
{
    let (last, name) = text.split_last()?;
    if *last == b':' { Some(name) } else { None }
}

/// The number that a token writes in the plain language.
pub(crate) fn number(text: &[u8]) -> Option<u32>
    ensures { result ≡ model.as_number text.now }
{
    if let Some(number) = address_named(text) {
        return Some(number);
    }
    match numeral(10, 8, text) {
        Some(number) => Some(number),
        None => hex(text),
    }
}

/// The number behind `$`.
fn hex(text: &[u8]) -> Option<u32>
    ensures { result ≡ model.as_hex text.now }
{
    let (first, digits) = text.split_first()?;
    if *first != b'$' {
        return None;
    }
    numeral(16, 8, digits)
}

/// The numbers that have a name in the plain language.
fn address_named(text: &[u8]) -> Option<u32>
    ensures { result ≡ plain.number_named text.now }
{
    let address = match text {
        b"right" => 0x1D5,
        b"down" => 0x115,
        b"left" => 0x175,
        b"up" => 0x145,
        b"io" => 0x15D,
        b"rdlu" => 0x1A5,
        b"warm" => 0x0A9,
        _ => return None,
    };
    Some(address)
}

/// The name that a token is.
pub(crate) fn name_in(text: &[u8]) -> Option<Name>
    ensures { option_map (λ name. name.bytes) result
        ≡ (if is_name text.now then Some text.now else None) }
{
    if !is_name(text) {
        return None;
    }
    match str::from_utf8(text) {
        Ok(name) => Name::new(name),
        Err(_) => None,
    }
}

/// One to sixteen letters and digits, the first no digit.
pub(crate) fn is_name(text: &[u8]) -> bool
    ensures { result ≡ plain.is_name text.now }
{
    match text.split_first() {
        Some((first, rest)) => {
            is_letter(*first) && rest.len() < 16 && are_letters_or_digits(rest)
        }
        None => false,
    }
}

fn are_letters_or_digits(text: &[u8]) -> bool
    ensures { result ≡ list_all plain.is_letter_or_digit text.now }
{
    text.iter().all(|byte| is_letter_or_digit(*byte))
}

/// An ASCII letter or `_`.
fn is_letter(byte: u8) -> bool
    ensures { result ≡ plain.is_letter byte }
{
    matches!(byte, b'A'..=b'Z' | b'a'..=b'z' | b'_')
}

fn is_letter_or_digit(byte: u8) -> bool
    ensures { result ≡ plain.is_letter_or_digit byte }
{
    is_letter(byte) || byte.is_ascii_digit()
}

/// Whether no definition may give a name.
pub(crate) fn is_kept(name: &[u8]) -> bool
    ensures { result ≡ model.is_kept name.now }
{
    is_reserved(name) || is_of_definitions(name) || is_of_places(name)
}

#[tactic(auto, unfolding(ga_pack::specs::Model::Token::is_reserved))]
pub(crate) fn is_reserved(name: &[u8]) -> bool
    ensures { result ≡ plain.is_reserved name.now }
{
    Op::from_bytes(name).is_some() || address_named(name).is_some() || is_fixed(name)
}

fn is_fixed(name: &[u8]) -> bool
    ensures { result ≡ is_some (plain.as_fixed name.now) }
{
    matches!(
        name,
        b"node" | b"align" | b"data" | b"[" | b"]" | b"," | b"/"
    )
}

/// Whether a token is a word that belongs to definitions.
pub(crate) fn is_of_definitions(name: &[u8]) -> bool
    ensures { result ≡ model.is_among model.words_of_definitions name.now }
{
    matches!(name, b"const" | b"body" | b"end" | b"use") || is_include(name)
}

fn is_of_places(name: &[u8]) -> bool
    ensures { result ≡ model.is_among model.words_of_places name.now }
{
    matches!(name, b"to" | b"north" | b"east" | b"south" | b"west")
}

fn is_include(name: &[u8]) -> bool
    ensures { result ≡ bytes_eq name.now (codes "include") }
{
    name == b"include".as_slice()
}
