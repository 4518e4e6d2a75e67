//! How tokens are expanded: each `use` is replaced, then each list of nodes, and then each token.
ghost use Rattle.std.specs.Prelude.{Ok};
ghost use Rattle.ga_expand.specs.Bodies.{unfolded};
ghost use Rattle.ga_expand.specs.Expanding.{expansion_from, start};
ghost use Rattle.ga_expand.specs.NodeLists as model;
ghost use Rattle.ga_expand.specs.Texts.{expanded};
ghost use Rattle.ga_expand.specs.inner.Making.{Made};
ghost use Rattle.ga_expand.specs.inner.Pieces.{left_in};

use crate::error::ExpandError;
use crate::expander::Expander;
use crate::expansion::Expansion;
use crate::node_lists::spread;
use crate::pieces::Pieces;
use crate::unfolding::unfold;
use std::alloc::Global;

/// The expansion of the tokens of a text.
pub(crate) fn expand_pieces(alloc: Global, pieces: Pieces<'_, '_>) -> Result<Expansion, ExpandError>
    ensures { Made (expanded (model.spread (unfolded (left_in pieces.entry)))) result }
{
    match unfold(alloc, pieces)? {
        Some(unfolded) => expand_unfolded(alloc, unfolded.pieces()),
        None => expand_unfolded(alloc, pieces),
    }
}

/// The expansion of tokens among which no `use` is left.
fn expand_unfolded(alloc: Global, pieces: Pieces<'_, '_>) -> Result<Expansion, ExpandError>
    ensures { Made (expanded (model.spread (Ok (left_in pieces.entry)))) result }
{
    match spread(alloc, pieces)? {
        Some(all) => expand_each(alloc, Pieces::made(&all, &[])),
        None => expand_each(alloc, pieces),
    }
}

/// The expansion of tokens among which no list of nodes is left.
fn expand_each(alloc: Global, pieces: Pieces<'_, '_>) -> Result<Expansion, ExpandError>
    ensures { Made (expansion_from start (left_in pieces.entry)) result }
{
    let mut left = pieces;
    let mut expander = Expander::new(alloc);
    while let Some((piece, others)) = left.split_first() {
        left = others;
        expander.take(piece)?;
    }
    expander.finish()
}
