//! A text is expanded token by token.
ghost use Rattle.std.specs.Prelude.{◌≡◌, ◌≢◌, ℕ, [], IfErr, IfOk, Err, None, Ok, OnOk, Some, false, option_map};
ghost use Rattle.std.specs.Str.{IsAscii};
ghost use Rattle.ga_source.specs.Token.{place_of};
ghost use Rattle.ga_expand.specs.Constants.{constant_of};
ghost use Rattle.ga_expand.specs.Error.{fault_of};
ghost use Rattle.ga_expand.specs.Expanding as model;
ghost use Rattle.ga_expand.specs.Expression.{value_of};
ghost use Rattle.ga_expand.specs.Places.{direction_named, port_named};
ghost use Rattle.ga_pack.specs.Model.Token.{is_reserved};
ghost use Rattle.ga_place.specs.Node.{node_named};
ghost use Rattle.ga_expand.specs.declared.error.ExpandErrorKind.TheVariants.{Memory};
ghost use Rattle.ga_expand.specs.inner.Constants.{constants_in};
ghost use Rattle.ga_expand.specs.inner.Piece.{piece_here, piece_in};
ghost use Rattle.ga_expand.specs.inner.Role.{op_named, role_stage};
ghost use Rattle.ga_expand.specs.inner.Scope.{HasFailed, HasTaken, HasWritten, IsFresh, Took, scope_of, stage_of};
ghost use Rattle.ga_expand.specs.inner.Writing.{Finished};

use crate::constants::{Constants, is_kept, is_name, is_reserved, name_in};
use crate::error::{ExpandError, ExpandErrorKind};
use crate::expansion::Expansion;
use crate::piece::Piece;
use crate::places::{Direction, port_named, port_towards};
use crate::role::{Role, behind_mark, behind_op};
use crate::spelling::{Spelling, spell};
use crate::writing::Writer;
use ga_place::Node;
use ga_source::{Name, Place};
use ga_word::{Op, Word18};
use std::alloc::Global;

/// What the next token is for.
#[derive(Clone, Copy)]
pub(crate) enum Stage {
    /// A definition, or the end of the definitions, with which a text begins.
    Head,
    /// The name of a constant, behind the `const` at this place.
    Naming(Place),
    /// The value of the constant with this name.
    Valuing(Name, Place),
    /// An item of the plain text, or a part of one.
    Body,
    /// The name of a node, behind `node`.
    NodeName,
    /// A number or the name of a label, behind `,` or an opcode that takes a destination.
    Value,
    /// The name of a neighbour of this node, behind the `to` at this place.
    Towards(Node, Place),
}

/// How far a text is read, and what is written for it.
#[derive(Drop)]
pub(crate) struct Expander {
    writer: Writer,
    constants: Constants,
    node: Option<Node>,
    stage: Stage,
}

impl Expander {
    pub(crate) fn new(alloc: Global) -> Self
        ensures scope { scope_of result ≡ model.start }
        ensures text { result.writer.text.items ≡ [] }
        ensures origins { result.writer.origins.items ≡ [] }
    {
        Expander {
            writer: Writer::new(alloc),
            constants: Constants::new(alloc),
            node: None,
            stage: Stage::Head,
        }
    }

    /// Takes a token.
    pub(crate) fn take(&mut self, piece: Piece<'_>) -> Result<(), ExpandError>
        requires { IsFresh (scope_of self.old) }
        ensures ok { OnOk result (HasTaken self.old self.new (piece_in piece.entry)) }
        ensures err { IfErr result (λ error. error.kind ≢ Memory
            → HasFailed self.old (piece_in piece.entry) (fault_of error)) }
    {
        match self.take_text(piece.text, piece.place) {
            Ok(()) => Ok(()),
            Err(kind) => Err(error_at(kind, piece.place)),
        }
    }

    #[tactic(auto, unfolding(crate::specs::Expanding::step_at))]
    fn take_text(&mut self, text: &[u8], place: Place) -> Result<(), ExpandErrorKind>
        requires { IsFresh (scope_of self.old) }
        ensures { Took self.old self.new (model.step (scope_of self.old)
            (piece_here text.now place)) result }
    {
        let stage = self.stage;
        match stage {
            Stage::Head => self.take_first(text, place),
            Stage::Naming(start) => self.take_name(text, start),
            Stage::Valuing(name, _) => self.take_value(name, text),
            Stage::Body => self.take_body(text, place),
            Stage::NodeName => self.take_node(text, place),
            Stage::Value => self.take_plain(text, place),
            Stage::Towards(node, start) => self.take_neighbour(node, text, start),
        }
    }

    /// A token where a definition may begin.
    fn take_first(&mut self, text: &[u8], place: Place) -> Result<(), ExpandErrorKind>
        ensures { Took self.old self.new (model.step_at (scope_of self.old)
            (piece_here text.now place) model.Head) result }
    {
        if text == b"const".as_slice() {
            self.stage = Stage::Naming(place);
            return Ok(());
        }
        self.take_plain(text, place)
    }

    /// A token where an item may begin. No label has the name of a constant.
    fn take_body(&mut self, text: &[u8], place: Place) -> Result<(), ExpandErrorKind>
        ensures { Took self.old self.new (model.step_at (scope_of self.old)
            (piece_here text.now place) model.Body) result }
    {
        if self.constants.has_label(text) {
            return Err(ExpandErrorKind::DuplicateName);
        }
        self.take_address(text, place)
    }

    /// The address of a label, or another token where an item may begin.
    fn take_address(&mut self, text: &[u8], place: Place) -> Result<(), ExpandErrorKind>
        ensures { Took self.old self.new (model.addressed (scope_of self.old)
            (piece_here text.now place) (model.label_in text.now)) result }
    {
        match label_in(text) {
            Some(label) => self.take_label(label, text, place),
            None => self.take_item(text, place),
        }
    }

    /// A label whose address is put on the stack.
    fn take_label(&mut self, label: &[u8], text: &[u8], place: Place) -> Result<(), ExpandErrorKind>
        ensures { Took self.old self.new (model.addressed (scope_of self.old)
            (piece_here text.now place) (Some label.now)) result }
    {
        self.writer.push_address(label, place)?;
        self.stage = Stage::Body;
        Ok(())
    }

    /// A token where an item may begin.
    fn take_item(&mut self, text: &[u8], place: Place) -> Result<(), ExpandErrorKind>
        ensures { Took self.old self.new (model.item_at (scope_of self.old) self.old.node
            (piece_here text.now place)) result }
    {
        let Some(node) = self.node else {
            return self.take_plain(text, place);
        };
        if text == b"to".as_slice() {
            self.stage = Stage::Towards(node, place);
            return Ok(());
        }
        self.take_direction(node, text, place)
    }

    /// A direction, or another token where an item may begin.
    fn take_direction(
        &mut self,
        node: Node,
        text: &[u8],
        place: Place,
    ) -> Result<(), ExpandErrorKind>
        ensures { Took self.old self.new (model.directed (scope_of self.old) node
            (piece_here text.now place) (direction_named text.now)) result }
    {
        match Direction::named(text) {
            Some(direction) => self.take_port(port_towards(node, direction), place),
            None => self.take_plain(text, place),
        }
    }

    /// The name of a neighbour, behind `to`.
    fn take_neighbour(
        &mut self,
        node: Node,
        text: &[u8],
        start: Place,
    ) -> Result<(), ExpandErrorKind>
        ensures { Took self.old self.new (model.number_step (model.with_stage (scope_of self.old)
            model.Body) (place_of start) (port_named node text.now)) result }
    {
        self.take_port(port_named(node, text), start)
    }

    /// A port.
    fn take_port(
        &mut self,
        port: Result<Word18, ExpandErrorKind>,
        place: Place,
    ) -> Result<(), ExpandErrorKind>
        ensures { Took self.old self.new (model.number_step (model.with_stage (scope_of self.old)
            model.Body) (place_of place) port) result }
    {
        let port = port?;
        self.writer.push(&Spelling::Number(port), place)?;
        self.stage = Stage::Body;
        Ok(())
    }

    /// A token behind `node`.
    fn take_node(&mut self, text: &[u8], place: Place) -> Result<(), ExpandErrorKind>
        ensures { Took self.old self.new (model.word_at (model.in_node (scope_of self.old)
            (node_named text.now)) (piece_here text.now place)) result }
    {
        self.push_word(text, place)?;
        let node = Node::from_digits(text);
        self.node = node;
        self.stage = Stage::Body;
        Ok(())
    }

    /// A token of the plain text.
    fn take_plain(&mut self, text: &[u8], place: Place) -> Result<(), ExpandErrorKind>
        ensures { Took self.old self.new (model.plain_at (scope_of self.old)
            (piece_here text.now place)) result }
    {
        match Op::from_bytes(text) {
            Some(op) => self.take_op(op, text, place),
            None => self.take_word(text, place),
        }
    }

    /// An opcode, which stays as it is: no constant has its name.
    #[inline(always)]
    fn take_op(&mut self, op: Op, text: &[u8], place: Place) -> Result<(), ExpandErrorKind>
        requires { op_named text.now ≡ Some op }
        ensures { Took self.old self.new (model.plain_at (scope_of self.old)
            (piece_here text.now place)) result }
    {
        self.writer.push(&Spelling::Same(text), place)?;
        self.stage = stage_in(behind_op(op));
        Ok(())
    }

    /// A token of the plain text that is no opcode.
    fn take_word(&mut self, text: &[u8], place: Place) -> Result<(), ExpandErrorKind>
        requires { op_named text.now ≡ None }
        ensures { Took self.old self.new (model.plain_at (scope_of self.old)
            (piece_here text.now place)) result }
    {
        self.push_word(text, place)?;
        self.stage = stage_in(behind_mark(text));
        Ok(())
    }

    /// A token behind `const`.
    fn take_name(&mut self, text: &[u8], start: Place) -> Result<(), ExpandErrorKind>
        ensures { Took self.old self.new (model.named (scope_of self.old) text.now
            (place_of start)) result }
    {
        let Some(name) = name_in(text) else {
            return Err(ExpandErrorKind::BadToken);
        };
        if is_kept(text) {
            return Err(ExpandErrorKind::ReservedName);
        }
        if self.constants.has(name) {
            return Err(ExpandErrorKind::DuplicateName);
        }
        self.stage = Stage::Valuing(name, start);
        Ok(())
    }

    /// The value of a constant.
    fn take_value(&mut self, name: Name, text: &[u8]) -> Result<(), ExpandErrorKind>
        requires new { constant_of (constants_in self.old.constants.values.entries) name.bytes
            ≡ None }
        requires free { is_reserved name.bytes ≡ false }
        ensures { Took self.old self.new (model.valued (scope_of self.old) name.bytes
            (value_of (scope_of self.old).constants text.now)) result }
    {
        let value = self.constants.value(text)?;
        self.constants.define(name, value)?;
        self.stage = Stage::Head;
        Ok(())
    }

    /// Writes what a token expands to.
    fn push_word(&mut self, text: &[u8], place: Place) -> Result<(), ExpandErrorKind>
        ensures ok { OnOk result (HasWritten self.old self.new (piece_here text.now place)) }
        ensures kept { OnOk result (self.new ≡ record self.old { writer = self.new.writer }) }
        ensures err { IfErr result (λ kind. kind ≢ Memory
            → model.word_of (scope_of self.old).constants text.now ≡ Err kind) }
    {
        match spell(&self.constants, text) {
            Ok(spelling) => Ok(self.writer.push(&spelling, place)?),
            Err(kind) => Err(kind),
        }
    }

    /// The expansion, at the end of the text.
    pub(crate) fn finish(self) -> Result<Expansion, ExpandError>
        requires { IsAscii self.writer.text.items }
        ensures ok { IfOk result (λ made. (model.ended (stage_of self.stage) ≡ Ok [])
            × Finished self.writer made) }
        ensures err { IfErr result (λ error. error.kind ≢ Memory
            → model.ended (stage_of self.stage) ≡ Err (fault_of error)) }
    {
        match self.stage {
            Stage::Naming(start) | Stage::Valuing(_, start) => {
                Err(error_at(ExpandErrorKind::OpenDefinition, start))
            }
            Stage::Towards(_, start) => Err(error_at(ExpandErrorKind::BadNode, start)),
            _ => Ok(self.writer.finish()?),
        }
    }
}

/// The label whose address a token is.
fn label_in(text: &[u8]) -> Option<&[u8]>
    ensures { option_map (λ label. label.now) result ≡ model.label_in text.now }
{
    let (first, name) = text.split_first()?;
    if *first == b'&' && is_name(name) && !is_reserved(name) {
        Some(name)
    } else {
        None
    }
}

/// The stage in which the next token is for this.
fn stage_in(role: Role) -> Stage
    ensures { stage_of result ≡ role_stage role }
{
    match role {
        Role::Item => Stage::Body,
        Role::NodeName => Stage::NodeName,
        Role::Value => Stage::Value,
    }
}

/// An error at a place.
pub(crate) fn error_at(kind: ExpandErrorKind, place: Place) -> ExpandError
    ensures kind { result.kind ≡ kind }
    ensures fault { fault_of result ≡ record { kind = kind; place = place_of place } }
{
    ExpandError {
        kind,
        line: place.line,
        column: place.column,
    }
}
