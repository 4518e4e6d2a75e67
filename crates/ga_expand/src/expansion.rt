//! The text that a text of the larger language expands to.
ghost use Rattle.std.specs.Prelude.{◌≡◌, ◌≢◌, ◌==◌, ◌&&◌, IfErr, IfOk, Err, map, option_map, slice_get, string_bytes};
ghost use Rattle.std.specs.List.{position};
ghost use Rattle.ga_source.specs.Token.{place_of};
ghost use Rattle.ga_expand.specs.Error.{fault_of};
ghost use Rattle.ga_expand.specs.Texts.{IsExpansion, expansion, origin_of};
ghost use Rattle.ga_expand.specs.Laws.{PlainStays};
ghost use Rattle.ga_expand.specs.declared.error.ExpandErrorKind.TheVariants.{Memory};

use crate::error::ExpandError;
use crate::making::expand_pieces;
use crate::pieces::Pieces;
use ga_source::{Place, Token, tokens};
use std::alloc::{AllocError, Global};

/// A text of the plain language, and where each of its tokens was written.
#[derive(Drop)]
pub struct Expansion {
    /// The text.
    pub text: String,
    /// For each token of the text, in order, the place in the larger text where it was written.
    pub origins: Vec<Place>,
}

impl Expansion {
    /// The place where a token was written, by the place at which the token is in
    /// [`text`](Self::text); or `None` if no token begins there, as at the text's end. So an error
    /// at a token of that text has a place in the larger one. Fails only when out of memory.
    pub fn origin(&self, alloc: Global, place: Place) -> Result<Option<Place>, AllocError>
        ensures { IfOk result (λ origin. option_map place_of origin
            ≡ origin_of (string_bytes self.now.text) (map place_of self.now.origins.items)
            (place_of place)) }
    {
        let tokens = tokens(alloc, self.text.as_str())?;
        match index_at(&tokens, place) {
            Some(index) => Ok(place_at(&self.origins, index)),
            None => Ok(None),
        }
    }
}

/// The place with an index.
fn place_at(places: &[Place], index: usize) -> Option<Place>
    ensures { result ≡ slice_get places.now index }
{
    places.get(index).copied()
}

/// The index of the first token at a place.
fn index_at(tokens: &[Token], place: Place) -> Option<usize>
    ensures { result ≡ position (λ token. (token.line == place.line)
        && (token.column == place.column)) tokens.now }
{
    tokens.iter().position(|token| token.line == place.line && token.column == place.column)
}

/// The plain text that a text of the larger language expands to, or its first error. (The language
/// is this project's own: profile.)
///
/// A text of the plain language that has a program expands to its own tokens. Fails with `Memory`
/// only when out of memory.
#[tactic(auto, using(crate::proofs::PlainTexts::plain_stays))]
pub fn expand(alloc: Global, source: &str) -> Result<Expansion, ExpandError>
    ensures expansion { IfOk result (λ made. IsExpansion source.now made) }
    ensures fault { IfErr result (λ error. error.kind ≢ Memory
        → expansion source.now ≡ Err (fault_of error)) }
    // a text of the plain language stays as it is
    ensures plain { PlainStays source.now }
{
    let tokens = tokens(alloc, source)?;
    expand_pieces(alloc, Pieces::of_text(source, &tokens))
}
