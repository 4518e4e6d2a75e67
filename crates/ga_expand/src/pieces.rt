//! Tokens that are read one by one.
ghost use Rattle.std.specs.Prelude.{◌≡◌, All};
ghost use Rattle.ga_expand.specs.inner.Piece.{piece_in, token_piece};
ghost use Rattle.ga_expand.specs.inner.Plain.{IsTokenOf};

use crate::piece::Piece;
use ga_source::{Place, Token};

/// The tokens that are left of a text, and behind them those that others stand for.
#[derive(Clone, Copy)]
pub(crate) struct Pieces<'b, 'a> {
    source: &'a str,
    tokens: &'b [Token],
    first: &'b [Piece<'a>],
    second: &'b [Piece<'a>],
    ghost inside: { All (IsTokenOf source.now) tokens.now },
}

impl<'b, 'a> Pieces<'b, 'a> {
    ghost use Rattle.std.specs.Prelude.{◌∷◌, ◌++◌, [], IfSome, None, map};
    ghost use Rattle.ga_expand.specs.inner.Pieces.{left_in};

    /// The tokens of a text.
    pub(crate) fn of_text(source: &'a str, tokens: &'b [Token]) -> Self
        requires { All (IsTokenOf source.now) tokens.now }
        ensures { left_in result ≡ map (token_piece source.now) tokens.now }
    {
        Pieces {
            source,
            tokens,
            first: &[],
            second: &[],
        }
    }

    /// The tokens that others stand for.
    pub(crate) fn made(first: &'b [Piece<'a>], second: &'b [Piece<'a>]) -> Self
        ensures { left_in result ≡ map piece_in first.now ++ map piece_in second.now }
    {
        Pieces {
            source: "",
            tokens: &[],
            first,
            second,
        }
    }

    /// The first token, and those behind it.
    #[inline(always)]
    pub(crate) fn split_first(self) -> Option<(Piece<'a>, Self)>
        ensures some { IfSome result (λ parts. left_in self.entry
            ≡ piece_in parts.0 ∷ left_in parts.1) }
        ensures none { result ≡ None → left_in self.entry ≡ [] }
    {
        if let Some((token, tokens)) = self.tokens.split_first() {
            let piece = piece_at(self.source, *token);
            let left = Pieces {
                source: self.source,
                tokens,
                first: self.first,
                second: self.second,
            };
            return Some((piece, left));
        }
        if let Some((piece, first)) = self.first.split_first() {
            return Some((*piece, Pieces::made(first, self.second)));
        }
        let (piece, second) = self.second.split_first()?;
        Some((*piece, Pieces::made(self.first, second)))
    }
}

/// A token of a text.
fn piece_at(source: &str, token: Token) -> Piece<'_>
    requires { IsTokenOf source.now token }
    ensures { piece_in result ≡ token_piece source.now token }
{
    Piece {
        text: &source.as_bytes()[token.start..token.end],
        place: Place {
            line: token.line,
            column: token.column,
        },
    }
}
