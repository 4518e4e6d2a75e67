ghost use Rattle.std.specs.Prelude.{◌≡◌, ◌+◌, ◌^◌, ◌<◌, ◌≤◌, All, IfOk, IfSome, ℕ, None, [], codes, length, map, slice_range};
ghost use Rattle.std.specs.Iterator.{YieldsFirstRef, item_count};
ghost use Rattle.std.specs.Str.{bytes_eq};
ghost use Rattle.ga_pack.specs.Model.Text as model;
ghost use Rattle.ga_pack.specs.Model.Text.{begins_character, end_of, lexemes, texts_of};
ghost use Rattle.ga_source.specs.Token.{place_of, token_of};
ghost use Rattle.ga_source.specs.inner.Token.{texts_left};
ghost use Rattle.ga_source.specs.inner.Walk.{BehindRun, Begins, FirstLine, FirstRun, lexemes_at, step, walk};

use ga_word::{first_blank, first_non_blank};
use memchr::memchr;
use std::alloc::{AllocError, Global};

/// A line and a column of a text, each from 1. Columns count characters, the Unicode scalar values.
#[derive(Clone, Copy, PartialEq, Eq)]
pub struct Place {
    pub line: usize,
    pub column: usize,
}

/// A token of a text: a longest run of bytes without space, tab, CR and LF.
#[derive(Clone, Copy, PartialEq, Eq)]
pub struct Token {
    /// The offset of its first byte in the text.
    pub start: usize,
    /// The offset behind its last byte.
    pub end: usize,
    /// The line of its first character, from 1. Lines end by LF.
    pub line: usize,
    /// The column of its first character, from 1. Columns count characters, the Unicode scalar
    /// values.
    pub column: usize,
}

/// The tokens of a text, in its order. The token `\` and the rest of its line are a comment, and no
/// token; nor is the text's end. Fails only when out of memory. (The texts are this project's own:
/// profile.)
pub fn tokens(alloc: Global, text: &str) -> Result<Vec<Token>, AllocError>
    ensures tokens { IfOk result (λ tokens. tokens.items ≡ map token_of (lexemes text.now)) }
    // each is its slice of the text
    ensures inside { IfOk result (λ tokens. All (λ t. (t.start ≤ t.end)
        × (t.end ≤ length text.now)) tokens.items) }
    ensures slices { IfOk result (λ tokens. map (λ t. slice_range text.now t.start t.end)
        tokens.items ≡ texts_of text.now) }
{
    let mut tokens = Vec::new(alloc);
    let mut place = Place { line: 1, column: 1 };
    let mut rest = text.as_bytes();
    while let Some((run, behind)) = next_token(rest) {
        let (front, _) = rest.split_at(rest.len() - behind.len() - run.len());
        place = place.behind(front);
        let end = text.len() - behind.len();
        tokens.push(Token {
            start: end - run.len(),
            end,
            line: place.line,
            column: place.column,
        })?;
        place = place.behind(run);
        rest = behind;
    }
    Ok(tokens)
}

/// Whether a run begins a comment.
fn is_comment(run: &[u8]) -> bool
    ensures { result ≡ bytes_eq run.now (codes "\\") }
{
    run == b"\\".as_slice()
}

/// The place behind the last character of a text, where faults of its end are. (The texts are this
/// project's own: profile.)
pub fn end_place(text: &str) -> Place
    ensures { place_of result ≡ end_of text.now }
{
    Place { line: 1, column: 1 }.behind(text.as_bytes())
}

impl Place {
    /// The place behind some bytes of a text that begin at this one.
    fn behind(self, bytes: &[u8]) -> Place
        requires line { self.line + length bytes.now < 2 ^ 64 }
        requires column { self.column + length bytes.now < 2 ^ 64 }
        ensures { place_of result ≡ walk (place_of self) bytes.now }
    {
        let mut place = self;
        for byte in bytes {
            place = place.next(*byte);
        }
        place
    }

    /// The place behind a byte at this one.
    #[inline(always)]
    fn next(self, byte: u8) -> Place
        requires { (self.line + 1 < 2 ^ 64) × (self.column + 1 < 2 ^ 64) }
        ensures { place_of result ≡ step (place_of self) byte }
    {
        if byte == b'\n' {
            return Place {
                line: self.line + 1,
                column: 1,
            };
        }
        Place {
            line: self.line,
            column: self.column + usize::from(begins_character(byte)),
        }
    }
}

/// The first line of a text, and the text behind the LF at its end.
#[inline(always)]
fn first_line(text: &[u8]) -> (&[u8], Option<&[u8]>)
    ensures { FirstLine text.now result.0.now result.1 }
{
    match memchr(b'\n', text) {
        Some(end) => (&text[..end], Some(&text[end + 1..])),
        None => (text, None),
    }
}

/// The texts of the tokens of a text, from the front.
#[derive(Drop)]
pub(crate) struct Texts<'a> {
    rest: &'a [u8],
}

impl<'a> Texts<'a> {
    pub(crate) fn new(text: &'a str) -> Self
        ensures { texts_left result ≡ texts_of text.now }
    {
        Texts {
            rest: text.as_bytes(),
        }
    }
}

impl<'a> Iterator for Texts<'a> {
    type Item = &'a [u8];

    ghost next_gives = { YieldsFirstRef texts_left };

    ghost remaining = { item_count texts_left };

    fn next(&mut self) -> Option<&'a [u8]> {
        let (run, behind) = next_token(self.rest)?;
        self.rest = behind_blank(behind);
        Some(run)
    }
}

/// The first token of a text, and the text behind it.
#[inline(always)]
fn next_token(text: &[u8]) -> Option<(&[u8], &[u8])>
    ensures some { IfSome result (λ parts. FirstRun text.now parts.0.now parts.1.now) }
    ensures none { result ≡ None → (p : model.Place) (start : ℕ)
        → lexemes_at p start text.now ≡ [] }
{
    let mut rest = text;
    loop {
        let (run, behind) = first_run(rest)?;
        if !is_comment(run) {
            return Some((run, behind));
        }
        rest = match first_line(behind).1 {
            Some(lines) => lines,
            None => &[],
        };
    }
}

/// The first run of bytes that are no blanks, and the text behind it.
fn first_run(text: &[u8]) -> Option<(&[u8], &[u8])>
    ensures some { IfSome result (λ parts. Begins text.now parts.0.now parts.1.now) }
    ensures none { result ≡ None → (p : model.Place) (start : ℕ)
        → lexemes_at p start text.now ≡ [] }
{
    let (_, rest) = text.split_at(first_non_blank(text)?);
    match first_blank(rest) {
        Some(end) => Some(rest.split_at(end)),
        None => Some(rest.split_at(rest.len())),
    }
}

/// The bytes from the second on, if there are any.
fn behind_blank(text: &[u8]) -> &[u8]
    requires { BehindRun text.now }
    ensures texts { texts_of result.now ≡ texts_of text.now }
    ensures short { length result.now ≤ length text.now }
{
    match text.split_first() {
        Some((_, rest)) => rest,
        None => text,
    }
}

/// Whether a byte begins a character in UTF-8.
fn begins_character(byte: u8) -> bool
    ensures { result ≡ begins_character byte }
{
    byte < 0x80 || byte >= 0xC0
}
