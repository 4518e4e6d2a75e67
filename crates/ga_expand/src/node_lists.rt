//! Sections with a list of nodes, and the sections that they stand for.
ghost use Rattle.std.specs.Prelude.{◌≡◌, ◌≢◌, ◌∷◌, ◌++◌, ◌-◌, ◌*◌, ℕ, Err, IfErr, IfOk, None, Ok, OnOk, Some, false, length, map, nat_lt, option_map, true, if◌then◌else◌};
ghost use Rattle.std.specs.List.{find, flat_map};
ghost use Rattle.std.specs.Option.{is_some, option_map_or};
ghost use Rattle.ga_place.specs.Node.{node_named};
ghost use Rattle.ga_expand.specs.NodeLists as model;
ghost use Rattle.ga_expand.specs.Error.{fault_of};
ghost use Rattle.ga_expand.specs.declared.error.ExpandErrorKind.TheVariants.{Memory};
ghost use Rattle.ga_expand.specs.inner.Bodies.{texts_in};
ghost use Rattle.ga_expand.specs.inner.Making.{has_list};
ghost use Rattle.ga_expand.specs.inner.NodeLists.{Spread, spreading_of};
ghost use Rattle.ga_expand.specs.inner.Piece.{piece_in};
ghost use Rattle.ga_expand.specs.inner.Pieces.{left_in};

use crate::error::{ExpandError, ExpandErrorKind};
use crate::expander::error_at;
use crate::piece::Piece;
use crate::pieces::Pieces;
use crate::unfolder::{LONGEST, MOST_UNFOLDED};
use ga_place::Node;
use std::alloc::{AllocError, Global};

/// The section that the next token belongs to.
#[derive(Clone, Copy)]
pub(crate) enum Section<'a> {
    /// One without a list, or the front of the text.
    NoList,
    /// The next token is its name or its list, behind this `node`.
    NodeNext(Piece<'a>),
    /// One with a list: its `node`, and the list.
    InList(Piece<'a>, Piece<'a>),
}

/// How far the sections of a text are read, and what they stand for.
#[derive(Drop)]
pub(crate) struct Spreader<'a> {
    alloc: Global,
    done: Vec<Piece<'a>>,
    /// How many tokens further copies may have.
    left: usize,
    section: Section<'a>,
    /// The tokens of a section with a list.
    tokens: Vec<Piece<'a>>,
}

/// Tokens with a section for each node of a list, or `None` if these are the same ones.
pub(crate) fn spread<'a>(
    alloc: Global,
    pieces: Pieces<'_, 'a>,
) -> Result<Option<Vec<Piece<'a>>>, ExpandError>
    ensures ok { IfOk result (λ made. model.spread (Ok (left_in pieces.entry))
        ≡ Ok (option_map_or (λ all. map piece_in all.items) made (left_in pieces.entry))) }
    ensures err { IfErr result (λ error. error.kind ≢ Memory
        → model.spread (Ok (left_in pieces.entry)) ≡ Err (fault_of error)) }
{
    if !has_list(pieces) {
        return Ok(None);
    }
    let mut left = pieces;
    let mut spreader = Spreader::new(alloc);
    while let Some((piece, others)) = left.split_first() {
        left = others;
        spreader.take(piece)?;
    }
    Ok(Some(spreader.finish()?))
}

/// Whether any token behind `node` is a list of nodes.
fn has_list(pieces: Pieces<'_, '_>) -> bool
    ensures { result ≡ has_list false (left_in pieces.entry) }
{
    let mut left = pieces;
    let mut behind = false;
    while let Some((piece, others)) = left.split_first() {
        left = others;
        if behind && is_list(piece.text) {
            return true;
        }
        behind = is_node(piece.text);
    }
    false
}

/// Whether a token is `node`.
#[tactic(auto, using(crate::proofs::Stages::node_text))]
fn is_node(text: &[u8]) -> bool
    ensures { result ≡ model.begins_section text.now }
{
    text == b"node".as_slice()
}

impl<'a> Spreader<'a> {
    fn new(alloc: Global) -> Self
        ensures { spreading_of result ≡ model.start_spread }
    {
        Spreader {
            alloc,
            done: Vec::new(alloc),
            left: MOST_UNFOLDED,
            section: Section::NoList,
            tokens: Vec::new(alloc),
        }
    }

    /// Takes a token.
    fn take(&mut self, piece: Piece<'a>) -> Result<(), ExpandError>
        ensures { Spread self.new (model.spread_at (spreading_of self.old)
            (piece_in piece.entry) (spreading_of self.old).section) result }
    {
        let section = self.section;
        match section {
            Section::NoList => self.take_other(piece),
            Section::NodeNext(node) => self.take_name(node, piece),
            Section::InList(node, list) => self.take_listed(node, list, piece),
        }
    }

    /// A token that isn't copied.
    fn take_other(&mut self, piece: Piece<'a>) -> Result<(), ExpandError>
        ensures { Spread self.new (model.spread_at (spreading_of self.old)
            (piece_in piece.entry) model.NoList) result }
    {
        if is_node(piece.text) {
            self.section = Section::NodeNext(piece);
            return Ok(());
        }
        self.done.push(piece)?;
        Ok(())
    }

    /// A token behind `node`.
    fn take_name(&mut self, node: Piece<'a>, piece: Piece<'a>) -> Result<(), ExpandError>
        ensures { Spread self.new (model.spread_at (spreading_of self.old)
            (piece_in piece.entry) (model.NodeNext (piece_in node.entry))) result }
    {
        if is_list(piece.text) {
            self.tokens.clear();
            self.section = Section::InList(node, piece);
            return Ok(());
        }
        self.done.push(node)?;
        self.done.push(piece)?;
        self.section = Section::NoList;
        Ok(())
    }

    /// A token of a section with a list, or the next section's `node`.
    fn take_listed(
        &mut self,
        node: Piece<'a>,
        list: Piece<'a>,
        piece: Piece<'a>,
    ) -> Result<(), ExpandError>
        ensures { Spread self.new (model.spread_at (spreading_of self.old)
            (piece_in piece.entry) (model.InList (piece_in node.entry) (piece_in list.entry)
            (map piece_in self.old.tokens.items))) result }
    {
        if is_node(piece.text) {
            self.end_list(node, list)?;
            self.section = Section::NodeNext(piece);
            return Ok(());
        }
        self.tokens.push(piece)?;
        self.section = Section::InList(node, list);
        Ok(())
    }

    /// Adds what a section with a list stands for.
    fn end_list(&mut self, node: Piece<'a>, list: Piece<'a>) -> Result<(), ExpandError>
        ensures { Spread self.new (model.list_ended (spreading_of self.old)
            (piece_in node.entry) (piece_in list.entry) (map piece_in self.old.tokens.items))
            result }
    {
        if !are_nodes(list.text) {
            return Err(error_at(ExpandErrorKind::BadNode, list.place));
        }
        let names = names_of(self.alloc, list)?;
        let Some(left) = left_behind(self.left, names.len(), self.tokens.len() + 2) else {
            return Err(error_at(ExpandErrorKind::TooLarge, list.place));
        };
        if let Some(long) = first_long(&self.tokens) {
            return Err(error_at(ExpandErrorKind::BadToken, long.place));
        }
        push_copies(&mut self.done, node, &names, &self.tokens)?;
        self.left = left;
        self.section = Section::NoList;
        Ok(())
    }

    /// The tokens, at the end of the text.
    fn finish(self) -> Result<Vec<Piece<'a>>, ExpandError>
        ensures ok { IfOk result (λ pieces. model.all_of (model.at_end (spreading_of self.entry)
            (spreading_of self.entry).section) ≡ Ok (map piece_in pieces.items)) }
        ensures err { IfErr result (λ error. error.kind ≢ Memory
            → model.all_of (model.at_end (spreading_of self.entry)
            (spreading_of self.entry).section) ≡ Err (fault_of error)) }
    {
        let mut spreader = self;
        match spreader.section {
            Section::NoList => {}
            Section::NodeNext(node) => spreader.done.push(node)?,
            Section::InList(node, list) => spreader.end_list(node, list)?,
        }
        Ok(spreader.done)
    }
}

/// Whether a token behind `node` has a comma.
fn is_list(text: &[u8]) -> bool
    ensures { result ≡ model.is_list text.now }
{
    text.iter().any(|byte| *byte == b',')
}

/// Whether all that is between commas are names of nodes.
fn are_nodes(text: &[u8]) -> bool
    ensures { result ≡ model.are_nodes text.now }
{
    text.split(|byte| *byte == b',')
        .all(|name| is_node_name(name))
}

fn is_node_name(name: &[u8]) -> bool
    ensures { result ≡ is_some (node_named name.now) }
{
    Node::from_digits(name).is_some()
}

/// The names of a list, each at the place of the list.
fn names_of<'a>(alloc: Global, list: Piece<'a>) -> Result<Vec<Piece<'a>>, AllocError>
    requires { model.are_nodes list.text.now ≡ true }
    ensures { IfOk result (λ names. map piece_in names.items
        ≡ model.named_by (piece_in list.entry)) }
{
    let texts = split(alloc, list.text)?;
    let mut names = Vec::new(alloc);
    for text in &texts {
        names.push(Piece {
            text: *text,
            place: list.place,
        })?;
    }
    Ok(names)
}

/// What is between commas.
fn split(alloc: Global, text: &[u8]) -> Result<Vec<&[u8]>, AllocError>
    ensures { IfOk result (λ texts. texts_in texts.items ≡ model.names_in text.now) }
{
    text.split(|byte| *byte == b',').collect(alloc)
}

/// How many tokens are left behind some copies of a number of tokens each.
fn left_behind(left: usize, copies: usize, tokens: usize) -> Option<usize>
    ensures { result ≡ (if nat_lt left (copies * tokens) then None
        else Some (left - copies * tokens)) }
{
    left.checked_sub(copies.checked_mul(tokens)?)
}

/// The first token that is too long to be copied.
fn first_long<'b, 'a>(tokens: &'b [Piece<'a>]) -> Option<&'b Piece<'a>>
    ensures { option_map (λ piece. piece.now) result
        ≡ find (λ piece. nat_lt 64 (length piece.text.now)) tokens.now }
{
    tokens.iter().find(|piece| piece.text.len() > LONGEST)
}

/// Adds a section for each name.
fn push_copies<'a>(
    pieces: &mut Vec<Piece<'a>>,
    node: Piece<'a>,
    names: &[Piece<'a>],
    tokens: &[Piece<'a>],
) -> Result<(), AllocError>
    ensures { OnOk result (pieces.new.items ≡ pieces.old.items
        ++ flat_map (λ name. node.entry ∷ name ∷ tokens.now) names.now) }
{
    for name in names {
        pieces.push(node)?;
        pieces.push(*name)?;
        pieces.extend_from_slice(tokens)?;
    }
    Ok(())
}
