//! Expectations that nodes don't meet: the replies of `expect` other than `ok`.
ghost use Rattle.std.specs.Prelude.{◌≡◌, ◌+◌, ◌<◌, ◌^◌, length};
ghost use Rattle.ga_transcript.specs.Unmet.{unmet_from, unmet_in, unmet_of};
ghost use Rattle.ga_transcript.specs.inner.First.{first_of};
ghost use Rattle.ga_transcript.specs.Unmet as spec;

use crate::lines::LinesLeft;
use ga_debug::Pieces;
use std::fmt;

/// The replies of a transcript to expectations that aren't met.
#[derive(Clone, Copy, Debug, PartialEq, Eq)]
pub struct Unmet {
    /// How many there are.
    pub count: u64,
    /// The number of the first one's line, counted from 1.
    pub first: u64,
}

impl fmt::Display for Unmet {
    fn fmt<W: fmt::Write>(&self, f: &mut fmt::Formatter<W>) -> fmt::Result {
        let Unmet { count, first } = self;
        match count {
            1 => write!(f, "1 expectation failed, in line {first}"),
            _ => write!(f, "{count} expectations failed, the first in line {first}"),
        }
    }
}

/// The replies of a transcript to expectations that aren't met, if there are any: the lines behind
/// `go` that begin with `expected `. (The texts are this project's own: profile.)
pub fn find_unmet(text: &str) -> Option<Unmet>
    ensures { result ≡ unmet_of (unmet_in text.now) }
{
    let first = first_unmet(text)?;
    let count = count_unmet(text);
    Some(Unmet { count, first })
}

/// The number of the first such line.
fn first_unmet(text: &str) -> Option<u64>
    ensures { result ≡ first_of (unmet_in text.now) }
{
    let mut left = lines_behind_go(text);
    while let Some(line) = left.lines.next() {
        left.number += 1;
        if is_unmet(line) {
            return Some(left.number);
        }
    }
    None
}

/// How many such lines there are.
fn count_unmet(text: &str) -> u64
    ensures { result ≡ length (unmet_in text.now) }
{
    let mut left = lines_behind_go(text);
    let mut count = 0;
    while let Some(line) = left.lines.next() {
        left.number += 1;
        if is_unmet(line) {
            count += 1;
        }
    }
    count
}

/// The lines of a text behind the first line `go`, and the number of that line.
fn lines_behind_go(text: &str) -> LinesLeft<'_>
    ensures lines { unmet_from (result.number + 1) result.lines ≡ unmet_in text.now }
    ensures room { result.number + length result.lines < 2 ^ 64 }
{
    // From the text's length the proof gets that its lines can be counted.
    let _length = text.len();
    let mut left = LinesLeft {
        number: 0,
        lines: Pieces::new(text, '\n'),
    };
    while let Some(line) = left.lines.next() {
        left.number += 1;
        if line == "go" {
            return left;
        }
    }
    left
}

/// Whether a line is the reply to an expectation that isn't met.
fn is_unmet(line: &str) -> bool
    ensures { result ≡ spec.is_unmet line.now }
{
    line.starts_with("expected ")
}
