//! The text of an expansion, token by token.
ghost use Rattle.std.specs.Prelude.{◌≡◌, ◌++◌, IfOk, IsUtf8, OnOk, [], string_bytes};
ghost use Rattle.std.specs.Str.{IsAscii};
ghost use Rattle.ga_source.specs.Token.{place_of};
ghost use Rattle.ga_expand.specs.Expanding.{address_texts, all_at};
ghost use Rattle.ga_expand.specs.inner.Piece.{piece_here, piece_of, text_of};
ghost use Rattle.ga_expand.specs.inner.Writing.{Finished, HasAdded, HasAddedAll, IsSeparated};

use crate::expansion::Expansion;
use crate::spelling::Spelling;
use ga_source::Place;
use ga_word::hex5;
use std::alloc::{AllocError, Global};

/// The tokens that are written so far, and the place of each.
#[derive(Drop)]
pub(crate) struct Writer {
    text: Vec<u8>,
    origins: Vec<Place>,
}

impl Writer {
    pub(crate) fn new(alloc: Global) -> Self
        ensures text { result.text.items ≡ [] }
        ensures origins { result.origins.items ≡ [] }
    {
        Writer {
            text: Vec::new(alloc),
            origins: Vec::new(alloc),
        }
    }

    /// Adds a token, on the line of the one before it if the two were written on one line.
    pub(crate) fn push(&mut self, spelling: &Spelling<'_>, place: Place) -> Result<(), AllocError>
        ensures { OnOk result (HasAdded self.old self.new (piece_of spelling.now place)) }
    {
        self.separate(place.line)?;
        push_spelling(&mut self.text, spelling)?;
        self.origins.push(place)?;
        Ok(())
    }

    /// Adds a word that fetches the next one, and that one, the address of a label.
    pub(crate) fn push_address(&mut self, label: &[u8], place: Place) -> Result<(), AllocError>
        ensures { OnOk result (HasAddedAll self.old self.new
            (all_at (place_of place) (address_texts label.now))) }
    {
        self.push_text(b"[", place)?;
        self.push_text(b"@p", place)?;
        self.push_text(b".", place)?;
        self.push_text(b".", place)?;
        self.push_text(b".", place)?;
        self.push_text(b"]", place)?;
        self.push_text(b",", place)?;
        self.push_text(label, place)?;
        Ok(())
    }

    fn push_text(&mut self, text: &[u8], place: Place) -> Result<(), AllocError>
        ensures { OnOk result (HasAdded self.old self.new (piece_here text.now place)) }
    {
        self.push(&Spelling::Same(text), place)
    }

    /// Adds the blank between the last token and one of a line.
    fn separate(&mut self, line: usize) -> Result<(), AllocError>
        ensures kept { OnOk result (self.new ≡ record self.old { text = self.new.text }) }
        ensures blank { OnOk result (IsSeparated self.old.origins.items self.old.text.items
            self.new.text.items) }
    {
        if let Some(last) = self.origins.last() {
            let blank = if last.line == line { b' ' } else { b'\n' };
            self.text.push(blank)?;
        }
        Ok(())
    }

    /// The expansion with these tokens.
    pub(crate) fn finish(self) -> Result<Expansion, AllocError>
        requires { IsAscii self.text.items }
        ensures { IfOk result (λ made. Finished self made) }
    {
        let mut writer = self;
        writer.text.push(b'\n')?;
        Ok(Expansion {
            text: string_of(writer.text),
            origins: writer.origins,
        })
    }
}

/// Adds the bytes of a token.
fn push_spelling(text: &mut Vec<u8>, spelling: &Spelling<'_>) -> Result<(), AllocError>
    ensures { OnOk result (text.new.items ≡ text.old.items ++ text_of spelling.now) }
{
    match *spelling {
        Spelling::Same(bytes) => text.extend_from_slice(bytes)?,
        Spelling::Number(number) => {
            text.push(b'$')?;
            text.extend_from_slice(&hex5(number))?;
        }
    }
    Ok(())
}

/// Bytes of ASCII as text.
fn string_of(bytes: Vec<u8>) -> String
    requires { IsUtf8 bytes.items }
    ensures { string_bytes result ≡ bytes.items }
{
    String::from_utf8(bytes).unwrap()
}
