//! The names that a token of a text may be meant as.
ghost use Rattle.std.specs.Prelude.{◌≡◌, ◌==◌, ◌&&◌, ◌≤◌, ◌++◌, ◌∷◌, [], if◌then◌else◌, IfOk, OnOk, map, length, slice_get, slice_range, IsUtf8, option_map, false};
ghost use Rattle.std.specs.List.{position};
ghost use Rattle.ga_word.specs.Op.{name_of, opcodes};
ghost use Rattle.ga_pack.specs.Model.Text.{texts_of};
ghost use Rattle.ga_source.specs.Token.{place_of};
ghost use Rattle.ga_expand.specs.Constants.{is_among};
ghost use Rattle.ga_hints.specs.Names.{begins_definition, bodies_in, constants_in, bodies_before_open, defined_constants, defines, is_use, item_words, language_words, last_of, names_for_expand, names_for_source, names_from, word_at, words_before};

use crate::bodies::first_open;
use crate::nearest::is_among;
use ga_expand::ExpandErrorKind;
use ga_source::{Name, Place, Token, tokens};
use ga_word::Op;
use std::alloc::{AllocError, Global};
use std::str;

/// A place by its line and its column.
pub(crate) fn place(line: usize, column: usize) -> Place
    ensures { result ≡ record { line = line; column = column } }
{
    Place { line, column }
}

/// What the tokens of a text are written as, in order.
pub(crate) fn words_of(alloc: Global, text: &str) -> Result<Vec<&str>, AllocError>
    ensures { IfOk result (λ words. map (λ word. word.now) words.items ≡ texts_of text.now) }
{
    let tokens = tokens(alloc, text)?;
    let mut words = Vec::with_capacity(alloc, tokens.len())?;
    for token in &tokens {
        words.push(token_text(text, *token))?;
    }
    Ok(words)
}

/// What a token of a text is written as.
fn token_text(text: &str, token: Token) -> &str
    requires inside { (token.start ≤ token.end) × (token.end ≤ length text.now) }
    requires whole { IsUtf8 (slice_range text.now token.start token.end) }
    ensures { result.now ≡ slice_range text.now token.start token.end }
{
    match str::from_utf8(&text.as_bytes()[token.start..token.end]) {
        Ok(text) => text,
        Err(_) => "",
    }
}

/// The text of the first token at a place.
pub(crate) fn word_at(alloc: Global, text: &str, place: Place) -> Result<Option<&str>, AllocError>
    ensures { IfOk result (λ word. option_map (λ word. word.now) word
        ≡ word_at text.now (place_of place)) }
{
    let tokens = tokens(alloc, text)?;
    match index_at(&tokens, place) {
        Some(index) => Ok(word_with(&words_of(alloc, text)?, index)),
        None => Ok(None),
    }
}

/// The index of the first token at a place.
fn index_at(tokens: &[Token], place: Place) -> Option<usize>
    ensures { result ≡ position (λ token. (token.line == place.line)
        && (token.column == place.column)) tokens.now }
{
    tokens.iter().position(|token| token.line == place.line && token.column == place.column)
}

/// The word with an index.
fn word_with<'a>(words: &[&'a str], index: usize) -> Option<&'a str>
    ensures { option_map (λ word. word.now) result
        ≡ slice_get (map (λ word. word.now) words.now) index }
{
    words.get(index).copied()
}

/// Adds the names of the 32 opcodes, in the order of their codes.
fn push_opcodes(names: &mut Vec<&str>) -> Result<(), AllocError>
    ensures { OnOk result (map (λ name. name.now) names.new.items
        ≡ map (λ name. name.now) names.old.items ++ map name_of opcodes) }
{
    for code in 0..32 {
        if let Some(op) = Op::from_code(code) {
            names.push(op.name())?;
        }
    }
    Ok(())
}

/// Adds the other words that may begin an item or a section.
fn push_item_words(names: &mut Vec<&str>) -> Result<(), AllocError>
    ensures { OnOk result (map (λ name. name.now) names.new.items
        ≡ map (λ name. name.now) names.old.items ++ item_words) }
{
    names.extend_from_slice(&[
        "node", "align", "data", "use", "to", "north", "east", "south", "west", "right", "down",
        "left", "up", "io", "rdlu", "warm",
    ])?;
    Ok(())
}

/// Adds what is directly behind each token that is a keyword.
fn push_names_behind<'a>(
    names: &mut Vec<&'a str>,
    tokens: &[&'a str],
    keyword: &str,
) -> Result<(), AllocError>
    ensures { OnOk result (map (λ name. name.now) names.new.items
        ≡ map (λ name. name.now) names.old.items
        ++ names_from keyword.now false (map (λ token. token.now) tokens.now)) }
{
    let mut is_behind = false;
    for token in tokens {
        push_if(names, is_behind, *token)?;
        is_behind = *token == keyword;
    }
    Ok(())
}

/// Adds a token, if it is a name.
fn push_if<'a>(names: &mut Vec<&'a str>, is_name: bool, token: &'a str) -> Result<(), AllocError>
    ensures { OnOk result (map (λ name. name.now) names.new.items
        ≡ map (λ name. name.now) names.old.items
        ++ (if is_name then token.now ∷ [] else [])) }
{
    if is_name {
        names.push(token)?;
    }
    Ok(())
}

/// The words of the language.
pub(crate) fn language_words<'a>(alloc: Global) -> Result<Vec<&'a str>, AllocError>
    ensures { IfOk result (λ names. map (λ name. name.now) names.items ≡ language_words) }
{
    let mut names = Vec::new(alloc);
    push_opcodes(&mut names)?;
    push_item_words(&mut names)?;
    Ok(names)
}

/// The names that a token that means nothing may be meant as, in a part with these tokens.
#[tactic(auto, unfolding(crate::specs::Names::names_for_source))]
pub(crate) fn names_for_source<'a>(
    alloc: Global,
    tokens: &[&'a str],
) -> Result<Vec<&'a str>, AllocError>
    ensures { IfOk result (λ names. map (λ name. name.now) names.items
        ≡ names_for_source (map (λ token. token.now) tokens.now)) }
{
    let mut names = language_words(alloc)?;
    push_names_behind(&mut names, tokens, "const")?;
    push_names_behind(&mut names, tokens, "body")?;
    Ok(names)
}

/// The names that a word at a fault of a text's definitions may be meant as, behind these tokens.
pub(crate) fn names_for_expand<'a>(
    alloc: Global,
    before: &[&'a str],
    word: &str,
    kind: ExpandErrorKind,
) -> Result<Vec<&'a str>, AllocError>
    ensures { IfOk result (λ names. map (λ name. name.now) names.items
        ≡ names_for_expand kind (map (λ word. word.now) before.now) word.now) }
{
    match kind {
        ExpandErrorKind::BadToken if !defines(before) => defined_constants(alloc, before),
        ExpandErrorKind::UnknownBody if !is_body(alloc, word, before)? => {
            bodies_before_open(alloc, before)
        }
        _ => Ok(Vec::new(alloc)),
    }
}

/// The constants that are defined in these tokens.
fn defined_constants<'a>(alloc: Global, tokens: &[&'a str]) -> Result<Vec<&'a str>, AllocError>
    ensures { IfOk result (λ names. map (λ name. name.now) names.items
        ≡ defined_constants (map (λ token. token.now) tokens.now)) }
{
    match tokens.split_last() {
        Some((_, defining)) => names_behind(alloc, defining, "const"),
        None => names_behind(alloc, tokens, "const"),
    }
}

/// The bodies of these tokens in front of the first one without an `end`.
fn bodies_before_open<'a>(alloc: Global, tokens: &[&'a str]) -> Result<Vec<&'a str>, AllocError>
    ensures { IfOk result (λ names. map (λ name. name.now) names.items
        ≡ bodies_before_open (map (λ token. token.now) tokens.now)) }
{
    let mut names = names_behind(alloc, tokens, "body")?;
    names.truncate(first_open(tokens).unwrap_or(names.len()));
    Ok(names)
}

/// Whether a word is the name of a body of a text or a part with these tokens.
pub(crate) fn is_body(alloc: Global, word: &str, tokens: &[&str]) -> Result<bool, AllocError>
    ensures { IfOk result (λ is. is
        ≡ is_among (bodies_in (map (λ token. token.now) tokens.now)) word.now) }
{
    let bodies = names_behind(alloc, tokens, "body")?;
    Ok(is_among(&bodies, word))
}

/// Whether the name of a constant or a body is defined behind these tokens.
fn defines(before: &[&str]) -> bool
    ensures { result ≡ defines (last_of (map (λ word. word.now) before.now)) }
{
    match word_with(before, before.len().saturating_sub(1)) {
        Some(word) => begins_definition(word),
        None => false,
    }
}

/// Whether the name of a body is used behind these tokens.
pub(crate) fn is_behind_use(before: &[&str]) -> bool
    ensures { result ≡ is_use (last_of (map (λ word. word.now) before.now)) }
{
    match word_with(before, before.len().saturating_sub(1)) {
        Some(word) => word == "use",
        None => false,
    }
}

/// Whether a definition begins with a word.
pub(crate) fn begins_definition(word: &str) -> bool
    ensures { result ≡ begins_definition word.now }
{
    word == "const" || word == "body"
}

/// The tokens of a text in front of the first one at a place.
pub(crate) fn words_before(alloc: Global, text: &str, place: Place) -> Result<Vec<&str>, AllocError>
    ensures { IfOk result (λ words. map (λ word. word.now) words.items
        ≡ words_before text.now (place_of place)) }
{
    let tokens = tokens(alloc, text)?;
    let mut words = words_of(alloc, text)?;
    words.truncate(index_at(&tokens, place).unwrap_or(0));
    Ok(words)
}

/// What is directly behind each token that is a keyword.
pub(crate) fn names_behind<'a>(
    alloc: Global,
    tokens: &[&'a str],
    keyword: &str,
) -> Result<Vec<&'a str>, AllocError>
    ensures { IfOk result (λ names. map (λ name. name.now) names.items
        ≡ names_from keyword.now false (map (λ token. token.now) tokens.now)) }
{
    let mut names = Vec::new(alloc);
    push_names_behind(&mut names, tokens, keyword)?;
    Ok(names)
}

/// The names that a label of a node with these labels, or its address, may be meant as.
pub(crate) fn names_for_label<'a>(
    alloc: Global,
    text: &'a str,
    is_address: bool,
    labels: &'a [Name],
) -> Result<Vec<&'a str>, AllocError>
    ensures { IfOk result (λ names. map (λ name. name.now) names.items
        ≡ map (λ label. label.bytes) labels.now
        ++ (if is_address then [] else constants_in (texts_of text.now))) }
{
    let mut names = label_names(alloc, labels)?;
    if !is_address {
        push_names_behind(&mut names, &words_of(alloc, text)?, "const")?;
    }
    Ok(names)
}

/// The names of labels.
fn label_names(alloc: Global, labels: &[Name]) -> Result<Vec<&str>, AllocError>
    ensures { IfOk result (λ names. map (λ name. name.now) names.items
        ≡ map (λ label. label.bytes) labels.now) }
{
    let mut names = Vec::new(alloc);
    for label in labels {
        names.push(label.as_str())?;
    }
    Ok(names)
}
