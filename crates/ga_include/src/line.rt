ghost use Rattle.std.specs.Prelude.{◌≡◌, ◌<◌, ◌∷◌, IfSome, None, [], codes, length, option_map};
ghost use Rattle.std.specs.List.{list_any};
ghost use Rattle.std.specs.Option.{option_and_then, option_copied};
ghost use Rattle.std.specs.Str.{bytes_eq};
ghost use Rattle.ga_pack.specs.Model.Text.{lines_of, texts_of};
ghost use Rattle.ga_word.specs.Text.{tokens};
ghost use Rattle.ga_include.specs.IncludeLine.{column_of, is_blank_there, is_comment_or_none, is_first, is_front, is_include, is_tail, name_between, name_in, parts_at_quote};

use ga_word::{first_blank, first_non_blank};

/// Whether a text has a line whose first token is `include`. A text without one is what it stands
/// for.
pub fn has_includes(text: &str) -> bool
    ensures value { result ≡ list_any is_include (lines_of text.now) }
    // the tokens are those of source texts
    ensures tokens { result ≡ list_any (λ line. is_first (codes "include") (texts_of line))
        (lines_of text.now) }
{
    let mut rest = text;
    while let Some((line, behind)) = first_line(rest) {
        if is_include(line.as_bytes()) {
            return true;
        }
        rest = behind;
    }
    is_include(rest.as_bytes())
}

/// The first line of a text that LF ends, and the text behind that LF.
pub(crate) fn first_line(text: &str) -> Option<(&str, &str)>
    ensures some { IfSome result (λ parts. lines_of text.now
        ≡ parts.0.now ∷ lines_of parts.1.now) }
    ensures none { result ≡ None → lines_of text.now ≡ text.now ∷ [] }
    ensures short { IfSome result (λ parts. length parts.1.now < length text.now) }
{
    match text.split_once('\n') {
        Some((line, behind)) => Some((line, behind)),
        None => None,
    }
}

/// Whether the first token of a line is `include`.
pub(crate) fn is_include(line: &[u8]) -> bool
    ensures { result ≡ is_include line.now }
{
    match first_token(line) {
        Some((token, _)) => is_word(token),
        None => false,
    }
}

/// The column of the first token of a line.
pub(crate) fn column_of(line: &[u8]) -> usize
    ensures { result ≡ column_of line.now }
{
    match first_non_blank(line) {
        Some(blanks) => blanks + 1,
        None => 1,
    }
}

/// The name in a line that includes a file: between its first two quotes.
#[tactic(auto, unfolding(crate::specs::IncludeLine::name_in))]
pub(crate) fn name_in(line: &str) -> Option<&str>
    ensures { option_map (λ name. name.now) result ≡ name_in line.now }
{
    match at_quote(line) {
        Some((front, behind)) => name_behind(front, behind),
        None => None,
    }
}

/// The same, by the parts of the line before its first quote and behind it.
fn name_behind<'a>(front: &str, behind: &'a str) -> Option<&'a str>
    ensures { option_map (λ name. name.now) result
        ≡ option_and_then (name_between front.now) (parts_at_quote behind.now) }
{
    match at_quote(behind) {
        Some((name, tail)) => {
            if is_front(front.as_bytes()) && !name.is_empty() && is_tail(tail.as_bytes()) {
                Some(name)
            } else {
                None
            }
        }
        None => None,
    }
}

/// The parts of a text before its first quote and behind it.
#[tactic(auto, using(crate::proofs::Cutting::at_a_quote, crate::proofs::Cutting::no_quote))]
fn at_quote(text: &str) -> Option<(&str, &str)>
    ensures { option_map (λ parts. (parts.0.now, parts.1.now)) result ≡ parts_at_quote text.now }
{
    match text.split_once('"') {
        Some((front, behind)) => Some((front, behind)),
        None => None,
    }
}

/// Whether a text has only the token `include`, and ends by a blank.
fn is_front(text: &[u8]) -> bool
    ensures { result ≡ is_front text.now }
{
    match first_token(text) {
        Some((word, behind)) => {
            is_word(word) && first_token(behind).is_none() && is_blank_there(text.last())
        }
        None => false,
    }
}

/// Whether a text is empty, or begins by a blank and has no tokens but a comment.
fn is_tail(text: &[u8]) -> bool
    ensures { result ≡ is_tail text.now }
{
    text.is_empty() || is_blank_there(text.first()) && is_comment_or_none(text)
}

/// Whether the first token of a text begins a comment, or is none.
fn is_comment_or_none(text: &[u8]) -> bool
    ensures { result ≡ is_comment_or_none (tokens text.now) }
{
    match first_token(text) {
        Some((token, _)) => token == b"\\".as_slice(),
        None => true,
    }
}

/// Whether there is a byte, and it is a blank.
fn is_blank_there(byte: Option<&u8>) -> bool
    ensures { result ≡ is_blank_there (option_copied byte.entry) }
{
    matches!(byte, Some(b' ' | b'\t' | b'\n' | b'\r'))
}

/// The first token of a text, and the text behind it.
fn first_token(text: &[u8]) -> Option<(&[u8], &[u8])>
    ensures some { IfSome result (λ parts. tokens text.now
        ≡ parts.0.now ∷ tokens parts.1.now) }
    ensures none { result ≡ None → tokens text.now ≡ [] }
{
    let (_, rest) = text.split_at(first_non_blank(text)?);
    Some(rest.split_at(first_blank(rest).unwrap_or(rest.len())))
}

/// Whether a token is `include`.
fn is_word(token: &[u8]) -> bool
    ensures { result ≡ bytes_eq token.now (codes "include") }
{
    token == b"include".as_slice()
}
