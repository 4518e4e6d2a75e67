//! What the parser takes outside brackets: instructions, numbers, destinations and plain words.
ghost use Rattle.std.specs.Prelude.{◌≡◌, ◌<◌, ℕ, suc, IfErr, OnOk};
ghost use Rattle.ga_pack.specs.Model.Source.{Behind, Code, Plain, Transfer};
ghost use Rattle.ga_source.specs.Item.{value_of};
ghost use Rattle.ga_source.specs.inner.Machine as machine;
ghost use Rattle.ga_source.specs.inner.Machine.{item_added};
ghost use Rattle.ga_source.specs.inner.Meaning.{IsShort, meaning_of};
ghost use Rattle.ga_source.specs.inner.Parser.{IsAnswer, Took, inside_of, section_part, state_of};
ghost use Rattle.ga_pack.specs.declared.error_kind.SourceErrorKind.TheVariants.{Memory};
ghost use Rattle.ga_source.specs.declared.parser.Part.TheVariants as part;
ghost use Rattle.ga_source.specs.declared.parser.Position.TheVariants as at;

use super::{Parser, Part, Position, name_of};
use crate::item::{Item, Value};
use crate::meaning::Meaning;
use arrayvec::ArrayVec;
use ga_pack::{SourceErrorKind, dest_bound, is_followed};
use ga_word::Op;

impl Parser {
    /// A token that begins an item and is no label.
    pub(crate) fn take_item(&mut self, token: &Meaning<'_>) -> Result<(), SourceErrorKind>
        requires position { self.old.position ≡ at.Between }
        ensures { IsAnswer (machine.take_first (section_part self.old.part) (inside_of self.old)
            (meaning_of token.now)) result (state_of self.new) }
    {
        match self.part {
            Part::Data => self.take_data(token),
            Part::Code(0) => self.take_code(token),
            Part::Code(_) => self.take_owed(token),
        }
    }

    // In the code part, with no follower missing.
    fn take_code(&mut self, token: &Meaning<'_>) -> Result<(), SourceErrorKind>
        requires position { self.old.position ≡ at.Between }
        ensures { IsAnswer (machine.take_first (Code 0) (inside_of self.old) (meaning_of token.now))
            result (state_of self.new) }
    {
        match *token {
            Meaning::Op(op) => self.take_op(op),
            Meaning::Number(number) => self.add(Item::Literal(number), Part::Code(0)),
            Meaning::Align => self.add(Item::Align, Part::Code(0)),
            Meaning::Data => self.add(Item::Data, Part::Data),
            Meaning::OpenMark => {
                self.ops = ArrayVec::new();
                self.position = Position::InWord;
                Ok(())
            }
            _ => Err(SourceErrorKind::BadToken),
        }
    }

    // An opcode outside brackets, with no follower missing.
    fn take_op(&mut self, op: Op) -> Result<(), SourceErrorKind>
        requires position { self.old.position ≡ at.Between }
        ensures { IsAnswer (machine.take_op (inside_of self.old) op) result (state_of self.new) }
    {
        if op.takes_dest() {
            self.position = Position::BehindOp(op);
            return Ok(());
        }
        if is_followed(op) {
            return Err(SourceErrorKind::BadToken);
        }
        self.add(Item::Instruction(op), Part::Code(0))
    }

    // In the code part, with followers missing.
    fn take_owed(&mut self, token: &Meaning<'_>) -> Result<(), SourceErrorKind>
        requires position { self.old.position ≡ at.Between }
        ensures { (owed : ℕ)
            → IsAnswer (machine.take_first (Code (suc owed)) (inside_of self.old)
            (meaning_of token.now)) result (state_of self.new) }
    {
        match *token {
            Meaning::Comma => {
                self.position = Position::BehindComma;
                Ok(())
            }
            Meaning::Data => self.add(Item::Data, Part::Data),
            Meaning::Op(op) if !is_followed(op) => Err(SourceErrorKind::BadWord),
            Meaning::Number(_) | Meaning::Align | Meaning::OpenMark => Err(
                SourceErrorKind::BadWord,
            ),
            _ => Err(SourceErrorKind::BadToken),
        }
    }

    // Behind `data`.
    fn take_data(&mut self, token: &Meaning<'_>) -> Result<(), SourceErrorKind>
        requires position { self.old.position ≡ at.Between }
        ensures { IsAnswer (machine.take_first Behind (inside_of self.old) (meaning_of token.now))
            result (state_of self.new) }
    {
        match *token {
            Meaning::Comma => {
                self.position = Position::BehindComma;
                Ok(())
            }
            _ => Err(SourceErrorKind::BadToken),
        }
    }

    /// Behind an opcode that takes a destination, outside brackets.
    pub(crate) fn take_dest(&mut self, op: Op, token: &Meaning<'_>) -> Result<(), SourceErrorKind>
        requires position { self.old.position ≡ at.BehindOp op }
        requires short { IsShort (meaning_of token.now) }
        ensures { Took (state_of self.old) (meaning_of token.now) result (state_of self.new) }
    {
        match *token {
            Meaning::Number(number) if number.get() < u32::from(dest_bound(0)) => {
                self.add_transfer(op, Value::Number(number))
            }
            Meaning::Number(_) => Err(SourceErrorKind::NumberRange),
            Meaning::Name(name) => self.add_transfer(op, Value::Label(name_of(name))),
            _ => Err(SourceErrorKind::BadToken),
        }
    }

    // An opcode outside brackets and its destination are whole.
    fn add_transfer(&mut self, op: Op, dest: Value) -> Result<(), SourceErrorKind>
        ensures ok { OnOk result (state_of self.new ≡ item_added (inside_of self.old)
            (Transfer op (value_of dest)) (Code 0)) }
        ensures err { IfErr result (λ kind. kind ≡ Memory) }
    {
        self.add(Item::Transfer { op, dest }, Part::Code(0))
    }

    /// Behind a comma.
    pub(crate) fn take_plain(&mut self, token: &Meaning<'_>) -> Result<(), SourceErrorKind>
        requires position { self.old.position ≡ at.BehindComma }
        requires owed { (owed : ℕ) → self.old.part ≡ part.Code owed → 0 < owed }
        requires short { IsShort (meaning_of token.now) }
        ensures { Took (state_of self.old) (meaning_of token.now) result (state_of self.new) }
    {
        match *token {
            Meaning::Number(number) => self.add_plain(Value::Number(number)),
            Meaning::Name(name) => self.add_plain(Value::Label(name_of(name))),
            _ => Err(SourceErrorKind::BadToken),
        }
    }

    // A plain word is whole.
    fn add_plain(&mut self, value: Value) -> Result<(), SourceErrorKind>
        requires owed { (owed : ℕ) → self.old.part ≡ part.Code owed → 0 < owed }
        ensures { IsAnswer (machine.with_part (inside_of self.old) (Plain (value_of value))) result
            (state_of self.new) }
    {
        let part = match self.part {
            Part::Code(owed) => Part::Code(owed - 1),
            Part::Data => Part::Data,
        };
        self.add(Item::Plain(value), part)
    }
}
