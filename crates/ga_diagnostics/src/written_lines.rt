//! The lines of an expansion, by where they were written.
ghost use Rattle.std.specs.Prelude.{◌≡◌, ◌==◌, ◌&&◌, ◌++◌, IfOk, codes, map, option_map, slice_get, string_bytes};
ghost use Rattle.std.specs.Fmt.{decimal};
ghost use Rattle.std.specs.List.{position};
ghost use Rattle.ga_pack.specs.Model.Text.{lexemes};
ghost use Rattle.ga_source.specs.Token.{place_of, token_of};
ghost use Rattle.ga_expand.specs.Texts.{origin_of};
ghost use Rattle.ga_faults.specs.Origin.{origin};
ghost use Rattle.ga_messages.specs.Shown.{shown_name};
ghost use Rattle.ga_diagnostics.specs.Lines.{name_of, origins_of};
ghost use Rattle.ga_diagnostics.specs.Listing.{line_text, written_names};

use crate::lines::Lines;
use ga_expand::Expansion;
use ga_list::LineNames;
use ga_messages::shown_name;
use ga_source::{Place, Token, end_place, tokens};
use std::alloc::{AllocError, Global};

/// The lines of an expansion of a text, by where their tokens were written.
#[derive(Drop)]
pub(crate) struct WrittenLines<'a> {
    lines: &'a Lines<'a>,
    text: &'a str,
    made: &'a Expansion,
    /// The tokens of the expansion.
    tokens: Vec<Token>,
    ghost read: { tokens.items ≡ map token_of (lexemes (string_bytes made.now.text)) },
}

impl<'a> WrittenLines<'a> {
    /// The lines of an expansion of a text whose lines were written there.
    pub(crate) fn new(
        alloc: Global,
        lines: &'a Lines<'a>,
        text: &'a str,
        made: &'a Expansion,
    ) -> Result<Self, AllocError>
        ensures lines { IfOk result (λ written. written.lines.now ≡ lines.now) }
        ensures text { IfOk result (λ written. written.text.now ≡ text.now) }
        ensures made { IfOk result (λ written. written.made.now ≡ made.now) }
    {
        let tokens = tokens(alloc, made.text.as_str())?;
        Ok(WrittenLines {
            lines,
            text,
            made,
            tokens,
        })
    }
}

impl<'a> LineNames for WrittenLines<'a> {
    ghost names = { λ written. written_names (name_of written.lines.now)
        (origins_of written.lines.now) written.text.now written.made.now };

    fn name(&self, alloc: Global, place: Place) -> Result<String, AllocError> {
        let Place { line, .. } = written_at(self.text, self.made, &self.tokens, place);
        line_name(alloc, self.lines, line)
    }
}

/// The place where the token at a place of an expansion was written, by the tokens of the
/// expansion. If no token begins there, it is the text's end.
fn written_at(text: &str, made: &Expansion, tokens: &[Token], place: Place) -> Place
    requires { tokens.now ≡ map token_of (lexemes (string_bytes made.now.text)) }
    ensures { place_of result ≡ origin text.now made.now (place_of place) }
{
    match origin_at(made, tokens, place) {
        Some(origin) => origin,
        None => end_place(text),
    }
}

/// The place where a token was written, if one begins at this place of the expansion.
fn origin_at(made: &Expansion, tokens: &[Token], place: Place) -> Option<Place>
    requires { tokens.now ≡ map token_of (lexemes (string_bytes made.now.text)) }
    ensures { option_map place_of result ≡ origin_of (string_bytes made.now.text)
        (map place_of made.now.origins.items) (place_of place) }
{
    match index_at(tokens, place) {
        Some(index) => place_at(&made.origins, index),
        None => None,
    }
}

/// The place with an index.
fn place_at(places: &[Place], index: usize) -> Option<Place>
    ensures { result ≡ slice_get places.now index }
{
    places.get(index).copied()
}

/// The index of the first token at a place.
fn index_at(tokens: &[Token], place: Place) -> Option<usize>
    ensures { result ≡ position (λ token. (token.line == place.line)
        && (token.column == place.column)) tokens.now }
{
    tokens.iter().position(|token| token.line == place.line && token.column == place.column)
}

/// What is shown of a line: its number in its file. If that is one that another file includes, its
/// name stands before the number.
fn line_name(alloc: Global, lines: &Lines<'_>, line: usize) -> Result<String, AllocError>
    ensures { IfOk result (λ name. string_bytes name
        ≡ line_text (name_of lines.now) (origins_of lines.now line)) }
{
    let (file, line) = lines.origin(line);
    if file == lines.name() {
        format!(in alloc; "{line}")
    } else {
        included_name(alloc, file, line)
    }
}

/// What is shown of a line of an included file.
fn included_name(alloc: Global, file: &str, line: usize) -> Result<String, AllocError>
    ensures { IfOk result (λ name. string_bytes name
        ≡ shown_name file.now ++ (codes ":" ++ decimal line)) }
{
    let file = shown_name(alloc, file)?;
    format!(in alloc; "{file}:{line}")
}
