//! The places of the words of an input.
ghost use Rattle.std.specs.Prelude.{◌≡◌, length, not, reverse, take_while};
ghost use Rattle.std.specs.List.{count_by, position};
ghost use Rattle.ga_source.specs.Token.{place_of};
ghost use Rattle.ga_word.specs.Text.{is_blank};
ghost use Rattle.ga_diagnostics.specs.WordPlace.{behind_blanks, behind_word, from_word, is_line_end, place_behind, word_place};

use ga_source::Place;

/// The place of the word with an index, from 0. In front of it are words and blanks alone, so its
/// column counts bytes.
#[tactic(auto, unfolding(crate::specs::WordPlace::word_place))]
pub(crate) fn word_place(text: &[u8], index: usize) -> Place
    ensures { place_of result ≡ word_place text.now index }
{
    let rest = from_word(text, index);
    place_behind(&text[..text.len().saturating_sub(rest.len())])
}

/// What begins with the word with an index.
fn from_word(text: &[u8], index: usize) -> &[u8]
    ensures { result.now ≡ from_word index text.now }
{
    let mut rest = text;
    for _ in 0..index {
        rest = behind_word(rest);
    }
    behind_blanks(rest)
}

/// What is behind the first word.
fn behind_word(text: &[u8]) -> &[u8]
    ensures { result.now ≡ behind_word text.now }
{
    let word = behind_blanks(text);
    let length = blank_index(word).unwrap_or(word.len());
    &word[length.min(word.len())..]
}

/// What is behind the blanks at the start of a text.
fn behind_blanks(text: &[u8]) -> &[u8]
    ensures { result.now ≡ behind_blanks text.now }
{
    let length = word_index(text).unwrap_or(text.len());
    &text[length.min(text.len())..]
}

/// How many bytes are in front of the first blank.
fn blank_index(text: &[u8]) -> Option<usize>
    ensures { result ≡ position is_blank text.now }
{
    text.iter().position(|byte| is_blank(*byte))
}

/// How many blanks are in front of the first word.
fn word_index(text: &[u8]) -> Option<usize>
    ensures { result ≡ position (λ byte. not (is_blank byte)) text.now }
{
    text.iter().position(|byte| !is_blank(*byte))
}

/// Whether a byte stands between words: a space, tab, LF or CR.
fn is_blank(byte: u8) -> bool
    ensures { result ≡ is_blank byte }
{
    matches!(byte, b' ' | b'\t' | b'\n' | b'\r')
}

/// The place behind some bytes.
fn place_behind(front: &[u8]) -> Place
    ensures { place_of result ≡ place_behind front.now }
{
    Place {
        line: line_ends(front) + 1,
        column: last_length(front) + 1,
    }
}

/// How many lines end in some bytes.
fn line_ends(front: &[u8]) -> usize
    ensures { result ≡ count_by is_line_end front.now }
{
    front.iter().filter(|byte| **byte == b'\n').count()
}

/// How many bytes are behind the last end of a line.
fn last_length(front: &[u8]) -> usize
    ensures { result ≡ length (take_while (λ byte. not (is_line_end byte)) (reverse front.now)) }
{
    front
        .iter()
        .rev()
        .take_while(|byte| **byte != b'\n')
        .count()
}
