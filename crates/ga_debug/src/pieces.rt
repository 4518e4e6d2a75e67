use std::marker::Model;

/// The parts of a text between separators, from the front: the words of a line, or the lines of a
/// text. Two separators side by side have an empty piece between them, and a separator at an end of
/// the text has one there. A contract sees the pieces that are left.
#[derive(Drop)]
pub struct Pieces<'a> {
    rest: Option<&'a str>,
    separator: char,
}

impl<'a> Model for Pieces<'a> {
    ghost use Rattle.std.specs.Prelude.{ℕ, ◌<◌, List};
    ghost use Rattle.ga_debug.specs.inner.Pieces.{pieces_in};

    ghost Value = { List (List ℕ) };

    ghost view = { λ pieces. pieces_in pieces.separator pieces.rest };

    ghost invariant = { λ pieces. pieces.separator < 128 };
}

impl<'a> Pieces<'a> {
    ghost use Rattle.std.specs.Prelude.{◌≡◌, ◌<◌};
    ghost use Rattle.ga_debug.specs.Pieces.{pieces};

    /// The pieces of a text. The separator is a character of ASCII.
    pub fn new(text: &'a str, separator: char) -> Self
        requires { separator < 128 }
        ensures { result ≡ pieces separator text.now }
    {
        Pieces {
            rest: Some(text),
            separator,
        }
    }

    /// The pieces that are left, to go through them once more.
    pub fn again(&self) -> Self
        ensures { result ≡ self.now }
    {
        Pieces {
            rest: self.rest,
            separator: self.separator,
        }
    }
}

impl<'a> Iterator for Pieces<'a> {
    ghost use Rattle.std.specs.Iterator.{YieldsFirstRef, item_count};

    type Item = &'a str;

    ghost next_gives = { YieldsFirstRef (λ left. left) };

    ghost remaining = { item_count (λ left. left) };

    // each line of a replay takes some five pieces
    #[inline(always)]
    fn next(&mut self) -> Option<&'a str> {
        let text = self.rest?;
        match text.split_once(self.separator) {
            Some((piece, behind)) => {
                self.rest = Some(behind);
                Some(piece)
            }
            None => {
                self.rest = None;
                Some(text)
            }
        }
    }
}
