//! Tokens with those of a shared body in place of each `use`.
ghost use Rattle.std.specs.Prelude.{◌≡◌, ◌≢◌, Err, IfErr, IfOk, Ok};
ghost use Rattle.std.specs.List.{list_all};
ghost use Rattle.std.specs.Option.{option_map_or};
ghost use Rattle.ga_expand.specs.Bodies.{unfolded};
ghost use Rattle.ga_expand.specs.Error.{fault_of};
ghost use Rattle.ga_expand.specs.declared.error.ExpandErrorKind.TheVariants.{Memory};
ghost use Rattle.ga_expand.specs.inner.Making.{is_apart, unfolded_in};
ghost use Rattle.ga_expand.specs.inner.Pieces.{left_in};

use crate::error::ExpandError;
use crate::pieces::Pieces;
use crate::unfolder::{Unfolded, Unfolder};
use std::alloc::Global;

/// The tokens of a text, with those of a shared body in place of each `use`; or `None` if these are
/// the same ones.
pub(crate) fn unfold<'a>(
    alloc: Global,
    pieces: Pieces<'_, 'a>,
) -> Result<Option<Unfolded<'a>>, ExpandError>
    ensures ok { IfOk result (λ made. unfolded (left_in pieces.entry)
        ≡ Ok (option_map_or unfolded_in made (left_in pieces.entry))) }
    ensures err { IfErr result (λ error. error.kind ≢ Memory
        → unfolded (left_in pieces.entry) ≡ Err (fault_of error)) }
{
    if are_apart(pieces) {
        return Ok(None);
    }
    let mut left = pieces;
    let mut unfolder = Unfolder::new(alloc);
    while let Some((piece, others)) = left.split_first() {
        left = others;
        unfolder.take(piece)?;
    }
    Ok(Some(unfolder.finish()?))
}

/// Whether no token is `use` or `body`.
fn are_apart(pieces: Pieces<'_, '_>) -> bool
    ensures { result ≡ list_all is_apart (left_in pieces.entry) }
{
    let mut left = pieces;
    while let Some((piece, others)) = left.split_first() {
        left = others;
        if piece.text == b"use".as_slice() || piece.text == b"body".as_slice() {
            return false;
        }
    }
    true
}
