//! The tokens of a text, with those of a shared body in place of each `use`.
ghost use Rattle.std.specs.Prelude.{◌≡◌, ◌≢◌, ◌++◌, Err, IfErr, IfOk, Ok, OnOk, map, option_map};
ghost use Rattle.std.specs.List.{list_any, position};
ghost use Rattle.std.specs.Str.{bytes_eq};
ghost use Rattle.ga_source.specs.Token.{place_of};
ghost use Rattle.ga_expand.specs.Bodies as model;
ghost use Rattle.ga_expand.specs.Constants.{is_among};
ghost use Rattle.ga_expand.specs.Error.{fault_of};
ghost use Rattle.ga_expand.specs.declared.error.ExpandErrorKind.TheVariants.{Memory};
ghost use Rattle.ga_expand.specs.inner.Bodies.{Read, Used, draft_in, part_in, reading_in, state_of};
ghost use Rattle.ga_expand.specs.inner.Making.{unfolded_in};
ghost use Rattle.ga_expand.specs.inner.Piece.{piece_in};
ghost use Rattle.ga_expand.specs.inner.Pieces.{left_in};
ghost use Rattle.ga_expand.specs.inner.Role.{role_stage};

use crate::bodies::{Part, SharedBody, behind, body_named, push_filled, push_pieces};
use crate::constants::{is_kept, is_name, is_of_definitions};
use crate::error::{ExpandError, ExpandErrorKind};
use crate::expander::error_at;
use crate::piece::Piece;
use crate::pieces::Pieces;
use crate::role::Role;
use ga_source::Place;
use std::alloc::{AllocError, Global};
use std::mem;

/// The most bytes of a token of a body, of an argument, and of a token that is copied.
pub(crate) const LONGEST: usize = 64;

/// The most tokens that all `use`s of a text stand for, and those that all its lists stand for.
pub(crate) const MOST_UNFOLDED: usize = 262_144;

/// The most bodies of a text.
const MOST_BODIES: usize = 256;

/// The most parameters of a body.
const MOST_PARAMETERS: usize = 64;

/// The body that is being defined: the place of its `body`, and its name.
#[derive(Clone, Copy)]
pub(crate) struct Draft<'a> {
    start: Place,
    name: &'a [u8],
}

/// What the next token is for.
#[derive(Clone, Copy)]
pub(crate) enum Reading {
    /// A definition, or the end of the definitions.
    Definitions,
    ConstantName,
    ConstantValue,
    /// The name of a body, behind the `body` at this place.
    BodyName(Place),
    /// A parameter of the body whose `body` is on this line, or the first token of the body.
    Parameters(usize),
    /// A token of a body or of the text, which is for this in the plain language.
    Tokens(Role),
    /// The name of a body, behind the `use` at this place.
    UseName(Place),
    /// An argument of the `use` at this place, with as many more behind it.
    Arguments(Place, usize),
}

/// How far a text is read, and what is left of its tokens.
#[derive(Drop)]
pub(crate) struct Unfolder<'a> {
    alloc: Global,
    constants: Vec<&'a [u8]>,
    /// The tokens that define the constants.
    definitions: Vec<Piece<'a>>,
    bodies: Vec<SharedBody<'a>>,
    /// How many tokens further `use`s may stand for.
    left: usize,
    draft: Option<Draft<'a>>,
    /// The parameters of the body that is being defined.
    parameters: Vec<&'a [u8]>,
    /// The tokens of this body.
    parts: Vec<Part<'a>>,
    /// The tokens of the text behind its definitions.
    text: Vec<Piece<'a>>,
    /// The tokens of the body whose arguments are read.
    used: Vec<Part<'a>>,
    arguments: Vec<Part<'a>>,
    reading: Reading,
}

/// The tokens of a text without its bodies and its `use`s: those that define its constants, and
/// those behind them.
#[derive(Drop)]
pub(crate) struct Unfolded<'a> {
    definitions: Vec<Piece<'a>>,
    text: Vec<Piece<'a>>,
}

impl<'a> Unfolded<'a> {
    pub(crate) fn pieces(&self) -> Pieces<'_, 'a>
        ensures { left_in result ≡ unfolded_in self.now }
    {
        Pieces::made(&self.definitions, &self.text)
    }
}

impl<'a> Unfolder<'a> {
    pub(crate) fn new(alloc: Global) -> Self
        ensures { state_of result ≡ model.first }
    {
        Unfolder {
            alloc,
            constants: Vec::new(alloc),
            definitions: Vec::new(alloc),
            bodies: Vec::new(alloc),
            left: MOST_UNFOLDED,
            draft: None,
            parameters: Vec::new(alloc),
            parts: Vec::new(alloc),
            text: Vec::new(alloc),
            used: Vec::new(alloc),
            arguments: Vec::new(alloc),
            reading: Reading::Definitions,
        }
    }

    /// Reads a token of a text.
    pub(crate) fn take(&mut self, piece: Piece<'a>) -> Result<(), ExpandError>
        ensures { Read self.new (model.read (state_of self.old) (piece_in piece.entry)) result }
    {
        if self.is_repeated() && piece.text.len() > LONGEST {
            return Err(error_at(ExpandErrorKind::BadToken, piece.place));
        }
        self.take_short(piece)
    }

    /// Whether the next token is one of a body, or an argument.
    fn is_repeated(&self) -> bool
        ensures { result ≡ model.is_repeated (state_of self.now).draft
            (state_of self.now).reading }
    {
        self.draft.is_some() || matches!(self.reading, Reading::Arguments(..))
    }

    /// Reads a token that isn't too long.
    #[tactic(auto, unfolding(crate::specs::Bodies::read_at))]
    fn take_short(&mut self, piece: Piece<'a>) -> Result<(), ExpandError>
        ensures { Read self.new (model.read_at (state_of self.old) (piece_in piece.entry)
            (state_of self.old).reading) result }
    {
        let reading = self.reading;
        match reading {
            Reading::Definitions => self.take_definition(piece),
            Reading::ConstantName => self.take_constant(piece),
            Reading::ConstantValue => self.keep(piece, Reading::Definitions),
            Reading::BodyName(start) => self.take_name(piece, start),
            Reading::Parameters(line) => self.take_parameter(piece, line),
            Reading::Tokens(role) => self.take_token(piece, role),
            Reading::UseName(start) => self.take_use(piece, start),
            Reading::Arguments(start, more) => self.take_argument(piece, start, more),
        }
    }

    /// A token where a definition may begin.
    #[tactic(auto, unfolding(crate::specs::Bodies::read_at))]
    fn take_definition(&mut self, piece: Piece<'a>) -> Result<(), ExpandError>
        ensures { Read self.new (model.read_at (state_of self.old) (piece_in piece.entry)
            model.Definitions) result }
    {
        if piece.text == b"const".as_slice() {
            return self.keep(piece, Reading::ConstantName);
        }
        if piece.text == b"body".as_slice() {
            self.reading = Reading::BodyName(piece.place);
            return Ok(());
        }
        self.push_token(piece, Role::Item)
    }

    /// A token of a constant's definition.
    fn keep(&mut self, piece: Piece<'a>, reading: Reading) -> Result<(), ExpandError>
        ensures { Read self.new (Ok (model.kept (state_of self.old) (piece_in piece.entry)
            (reading_in self.old.used.items self.old.arguments.items reading))) result }
    {
        self.definitions.push(piece)?;
        self.reading = reading;
        Ok(())
    }

    /// The name of a constant.
    #[tactic(auto, unfolding(crate::specs::Bodies::read_at))]
    fn take_constant(&mut self, piece: Piece<'a>) -> Result<(), ExpandError>
        ensures { Read self.new (model.read_at (state_of self.old) (piece_in piece.entry)
            model.ConstantName) result }
    {
        if self.has_body(piece.text) {
            return Err(error_at(ExpandErrorKind::DuplicateName, piece.place));
        }
        self.constants.push(piece.text)?;
        self.keep(piece, Reading::ConstantValue)
    }

    fn has_body(&self, name: &[u8]) -> bool
        ensures { result ≡ model.is_body_name (state_of self.now) name.now }
    {
        body_named(&self.bodies, name).is_some()
    }

    /// Whether a constant or a body has a name.
    fn is_taken(&self, name: &[u8]) -> bool
        ensures { result ≡ model.is_taken (state_of self.now) name.now }
    {
        self.has_body(name) || is_among(&self.constants, name)
    }

    fn has_all_bodies(&self) -> bool
        ensures { result ≡ model.has_all_bodies (state_of self.now) }
    {
        self.bodies.len() >= MOST_BODIES
    }

    fn has_all_parameters(&self) -> bool
        ensures { result ≡ model.has_all_parameters (state_of self.now) }
    {
        self.parameters.len() >= MOST_PARAMETERS
    }

    fn is_parameter(&self, name: &[u8]) -> bool
        ensures { result ≡ is_among (state_of self.now).parameters name.now }
    {
        is_among(&self.parameters, name)
    }

    /// The name of a body.
    #[tactic(auto, unfolding(crate::specs::Bodies::read_at))]
    fn take_name(&mut self, piece: Piece<'a>, start: Place) -> Result<(), ExpandError>
        ensures { Read self.new (model.read_at (state_of self.old) (piece_in piece.entry)
            (model.BodyName (place_of start))) result }
    {
        let taken = self.is_taken(piece.text);
        if let Some(kind) = name_error(taken, self.has_all_bodies(), piece.text) {
            return Err(error_at(kind, piece.place));
        }
        self.draft = Some(Draft {
            start,
            name: piece.text,
        });
        self.reading = Reading::Parameters(start.line);
        Ok(())
    }

    /// A token behind the name of a body.
    #[tactic(auto, unfolding(crate::specs::Bodies::read_at))]
    fn take_parameter(&mut self, piece: Piece<'a>, line: usize) -> Result<(), ExpandError>
        ensures { Read self.new (model.read_at (state_of self.old) (piece_in piece.entry)
            (model.Parameters line)) result }
    {
        if piece.place.line != line {
            return self.take_token(piece, Role::Item);
        }
        let taken = self.is_parameter(piece.text);
        if let Some(kind) = name_error(taken, self.has_all_parameters(), piece.text) {
            return Err(error_at(kind, piece.place));
        }
        self.parameters.push(piece.text)?;
        Ok(())
    }

    /// A token of a body or of the text, or the end of a body.
    #[inline(always)]
    fn take_token(&mut self, piece: Piece<'a>, role: Role) -> Result<(), ExpandError>
        ensures { Read self.new (Ok (model.token_or_end (state_of self.old) (role_stage role)
            (piece_in piece.entry) (model.ends (state_of self.old).draft
            piece.entry.text.now))) result }
    {
        match self.ending(piece.text) {
            Some(draft) => self.define(draft),
            None => self.push_token(piece, role),
        }
    }

    /// The body that a token ends.
    fn ending(&self, text: &[u8]) -> Option<Draft<'a>>
        ensures { option_map draft_in result ≡ model.ends (state_of self.now).draft text.now }
    {
        let draft = self.draft?;
        if text == b"end".as_slice() {
            Some(draft)
        } else {
            None
        }
    }

    /// Ends the definition of a body.
    fn define(&mut self, draft: Draft<'a>) -> Result<(), ExpandError>
        ensures { Read self.new (Ok (model.defined (state_of self.old)
            (draft_in draft.entry))) result }
    {
        let parts = mem::replace(&mut self.parts, Vec::new(self.alloc));
        self.bodies.push(SharedBody {
            name: draft.name,
            arity: self.parameters.len(),
            parts,
        })?;
        self.draft = None;
        self.parameters.clear();
        self.reading = Reading::Definitions;
        Ok(())
    }

    /// A token of a body or of the text.
    #[inline(always)]
    fn push_token(&mut self, piece: Piece<'a>, role: Role) -> Result<(), ExpandError>
        ensures { Read self.new (Ok (model.with_token (state_of self.old) (role_stage role)
            (piece_in piece.entry))) result }
    {
        if is_use(role, piece.text) {
            self.reading = Reading::UseName(piece.place);
            return Ok(());
        }
        self.reading = Reading::Tokens(behind(role, piece.text));
        if self.draft.is_some() {
            let part = self.part_at(piece);
            self.parts.push(part)?;
        } else {
            self.text.push(piece)?;
        }
        Ok(())
    }

    /// A token, and the parameter that it names.
    #[inline(always)]
    fn part_at(&self, piece: Piece<'a>) -> Part<'a>
        ensures { part_in result ≡ model.part_at (state_of self.now) (piece_in piece.entry) }
    {
        Part {
            piece,
            parameter: index_of(&self.parameters, piece.text),
        }
    }

    /// The name of a body, behind `use`.
    #[tactic(auto, unfolding(crate::specs::Bodies::read_at))]
    fn take_use(&mut self, piece: Piece<'a>, start: Place) -> Result<(), ExpandError>
        ensures { Read self.new (model.read_at (state_of self.old) (piece_in piece.entry)
            (model.UseName (place_of start))) result }
    {
        if self.ending(piece.text).is_some() {
            return Err(error_at(ExpandErrorKind::OpenDefinition, start));
        }
        self.begin_use(piece, start)
    }

    /// Begins what a `use` stands for, by the name behind it.
    fn begin_use(&mut self, name: Piece<'a>, start: Place) -> Result<(), ExpandError>
        ensures { Read self.new (model.use_of (state_of self.old) (place_of start)
            (place_of name.entry.place) (model.body_named (state_of self.old).bodies
            name.entry.text.now)) result }
    {
        let Some(body) = body_named(&self.bodies, name.text) else {
            return Err(error_at(ExpandErrorKind::UnknownBody, name.place));
        };
        if self.left < body.parts.len() {
            return Err(error_at(ExpandErrorKind::TooLarge, name.place));
        }
        self.left -= body.parts.len();
        self.used.clear();
        self.used.extend_from_slice(&body.parts)?;
        self.arguments.clear();
        let arity = body.arity;
        self.await_arguments(start, arity)
    }

    /// An argument, or a token that is none.
    #[tactic(auto, unfolding(crate::specs::Bodies::read_at))]
    fn take_argument(
        &mut self,
        piece: Piece<'a>,
        start: Place,
        more: usize,
    ) -> Result<(), ExpandError>
        ensures { Read self.new (model.read_at (state_of self.old) (piece_in piece.entry)
            (model.Arguments (place_of start) more (map part_in self.old.used.items)
            (map part_in self.old.arguments.items))) result }
    {
        if !is_argument(start.line, piece) {
            return Err(error_at(ExpandErrorKind::OpenDefinition, start));
        }
        let part = self.part_at(piece);
        self.arguments.push(part)?;
        self.await_arguments(start, more)
    }

    /// Goes on with a `use` for which arguments are missing, or adds what it stands for.
    fn await_arguments(&mut self, start: Place, missing: usize) -> Result<(), ExpandError>
        ensures { Read self.new (Ok (model.missing (state_of self.old) (place_of start) missing
            (map part_in self.old.used.items) (map part_in self.old.arguments.items))) result }
    {
        if missing != 0 {
            self.reading = Reading::Arguments(start, missing - 1);
            return Ok(());
        }
        let role = self.push_used()?;
        self.reading = Reading::Tokens(role);
        Ok(())
    }

    /// Adds what a `use` stands for, whose arguments are all there.
    fn push_used(&mut self) -> Result<Role, AllocError>
        ensures { Used self.old self.new result }
    {
        if self.draft.is_some() {
            push_filled(&mut self.parts, &self.used, &self.arguments)
        } else {
            push_pieces(&mut self.text, &self.used, &self.arguments)
        }
    }

    /// The tokens, at the end of the text.
    pub(crate) fn finish(self) -> Result<Unfolded<'a>, ExpandError>
        ensures ok { IfOk result (λ unfolded. model.whole (state_of self.entry)
            ≡ Ok (unfolded_in unfolded)) }
        ensures err { IfErr result (λ error. error.kind ≢ Memory
            → model.whole (state_of self.entry) ≡ Err (fault_of error)) }
    {
        if let Some(start) = self.left_open() {
            return Err(error_at(ExpandErrorKind::OpenDefinition, start));
        }
        let unfolder = self;
        Ok(Unfolded {
            definitions: unfolder.definitions,
            text: unfolder.text,
        })
    }

    /// The place of a `body` or a `use` without its end.
    fn left_open(&self) -> Option<Place>
        ensures { option_map place_of result
            ≡ model.left_open (state_of self.now).draft (state_of self.now).reading }
    {
        if let Some(draft) = self.draft {
            return Some(draft.start);
        }
        match self.reading {
            Reading::BodyName(start) | Reading::UseName(start) | Reading::Arguments(start, _) => {
                Some(start)
            }
            _ => None,
        }
    }
}

/// What is wrong with a name that is defined, if it is taken or not, and if there are as many as
/// may be.
fn name_error(taken: bool, full: bool, text: &[u8]) -> Option<ExpandErrorKind>
    ensures { result ≡ model.name_error taken full text.now }
{
    if !is_name(text) {
        return Some(ExpandErrorKind::BadToken);
    }
    if is_kept(text) {
        return Some(ExpandErrorKind::ReservedName);
    }
    if taken {
        return Some(ExpandErrorKind::DuplicateName);
    }
    if full {
        return Some(ExpandErrorKind::TooLarge);
    }
    None
}

fn is_among(names: &[&[u8]], text: &[u8]) -> bool
    ensures { result ≡ list_any (λ name. bytes_eq text.now name.now) names.now }
{
    names.iter().any(|name| text == *name)
}

/// The number of the parameter with a name.
fn index_of(names: &[&[u8]], text: &[u8]) -> Option<usize>
    ensures { result ≡ position (λ name. bytes_eq name.now text.now) names.now }
{
    names.iter().position(|name| *name == text)
}

/// Whether a token may be an argument of a `use` on a line.
fn is_argument(line: usize, piece: Piece<'_>) -> bool
    ensures { result ≡ model.is_argument line (piece_in piece.entry) }
{
    piece.place.line == line && !is_delimiter(piece.text)
}

/// Whether a definition, a `use`, an include or a section begins with a token, or a body ends.
fn is_delimiter(text: &[u8]) -> bool
    ensures { result ≡ model.is_delimiter text.now }
{
    is_of_definitions(text) || text == b"node".as_slice()
}

/// Whether a token is the word `use`.
fn is_use(role: Role, text: &[u8]) -> bool
    ensures { result ≡ model.is_use (role_stage role) text.now }
{
    match role {
        Role::Item => text == b"use".as_slice(),
        _ => false,
    }
}
