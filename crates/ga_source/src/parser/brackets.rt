//! What the parser takes in brackets: the opcodes of a word, its destination, and its spare bits.
ghost use Rattle.std.specs.Prelude.{◌≡◌, IfOk, Some};
ghost use Rattle.ga_pack.specs.Model.Source.{Code, Word, WordTo};
ghost use Rattle.ga_pack.specs.Model.SourceFault as faults;
ghost use Rattle.ga_source.specs.Item.{item_of, value_of};
ghost use Rattle.ga_source.specs.inner.Machine as machine;
ghost use Rattle.ga_source.specs.inner.Meaning.{IsShort, meaning_of};
ghost use Rattle.ga_source.specs.inner.Parser.{IsAnswer, Took, inside_of, section_part, state_of};
ghost use Rattle.ga_source.specs.declared.parser.Position.TheVariants as at;

use super::{Parser, Part, Position, name_of};
use crate::item::{Item, TransferWord, Value};
use crate::meaning::Meaning;
use arrayvec::ArrayVec;
use ga_pack::{SourceErrorKind, dest_bound, followers_of, op_fits, spare_bound};
use ga_word::Op;
use std::alloc::{AllocError, Global};

impl Parser {
    /// In brackets, before any opcode with a destination.
    pub(crate) fn take_slot(&mut self, token: &Meaning<'_>) -> Result<(), SourceErrorKind>
        requires position { self.old.position ≡ at.InWord }
        requires code { section_part self.old.part ≡ Code 0 }
        ensures { Took (state_of self.old) (meaning_of token.now) result (state_of self.new) }
    {
        match *token {
            Meaning::Op(op) => {
                let slot = self.ops.len();
                if op.takes_dest() {
                    if slot >= 3 {
                        return Err(SourceErrorKind::BadWord);
                    }
                    self.position = Position::BehindDestOp(op);
                    return Ok(());
                }
                if op_fits(slot, op) {
                    self.ops.push(op);
                    return Ok(());
                }
                Err(SourceErrorKind::BadWord)
            }
            Meaning::CloseMark => {
                if self.ops.is_empty() {
                    return Err(SourceErrorKind::BadWord);
                }
                self.close_word()
            }
            _ => Err(bracket_fault(token)),
        }
    }

    /// In brackets, behind an opcode that takes a destination.
    pub(crate) fn take_field(&mut self, op: Op, token: &Meaning<'_>) -> Result<(), SourceErrorKind>
        requires position { self.old.position ≡ at.BehindDestOp op }
        requires short { IsShort (meaning_of token.now) }
        ensures { Took (state_of self.old) (meaning_of token.now) result (state_of self.new) }
    {
        match *token {
            Meaning::Number(number) => {
                if number.get() >= u32::from(dest_bound(self.ops.len())) {
                    return Err(SourceErrorKind::BadWord);
                }
                self.position = Position::BehindDest(op, Value::Number(number));
                Ok(())
            }
            Meaning::Name(name) => {
                self.position = Position::BehindDest(op, Value::Label(name_of(name)));
                Ok(())
            }
            _ => Err(bracket_fault(token)),
        }
    }

    /// In brackets, behind a destination.
    pub(crate) fn take_behind_dest(
        &mut self,
        op: Op,
        dest: Value,
        token: &Meaning<'_>,
    ) -> Result<(), SourceErrorKind>
        requires position { self.old.position ≡ at.BehindDest op dest }
        requires code { section_part self.old.part ≡ Code 0 }
        ensures { Took (state_of self.old) (meaning_of token.now) result (state_of self.new) }
    {
        match *token {
            Meaning::Slash => {
                if !self.ops.is_empty() {
                    return Err(SourceErrorKind::BadWord);
                }
                self.position = Position::BehindSlash(op, dest);
                Ok(())
            }
            Meaning::CloseMark => self.close(op, dest, None),
            _ => Err(bracket_fault(token)),
        }
    }

    /// In brackets, behind `/`.
    pub(crate) fn take_spare(
        &mut self,
        op: Op,
        dest: Value,
        token: &Meaning<'_>,
    ) -> Result<(), SourceErrorKind>
        requires position { self.old.position ≡ at.BehindSlash op dest }
        ensures { Took (state_of self.old) (meaning_of token.now) result (state_of self.new) }
    {
        match *token {
            Meaning::Number(spare) if spare.get() < u32::from(spare_bound(0)) => {
                self.position = Position::BehindSpare(op, dest, spare.get() as u8);
                Ok(())
            }
            Meaning::Number(_) => Err(SourceErrorKind::BadWord),
            _ => Err(bracket_fault(token)),
        }
    }

    /// In brackets, behind spare bits.
    pub(crate) fn take_close(
        &mut self,
        op: Op,
        dest: Value,
        spare: u8,
        token: &Meaning<'_>,
    ) -> Result<(), SourceErrorKind>
        requires position { self.old.position ≡ at.BehindSpare op dest spare }
        requires code { section_part self.old.part ≡ Code 0 }
        ensures { Took (state_of self.old) (meaning_of token.now) result (state_of self.new) }
    {
        match *token {
            Meaning::CloseMark => self.close(op, dest, Some(spare)),
            _ => Err(bracket_fault(token)),
        }
    }

    // A bracketed word without a destination is whole.
    fn close_word(&mut self) -> Result<(), SourceErrorKind>
        requires code { section_part self.old.part ≡ Code 0 }
        ensures { IsAnswer (machine.with_part (inside_of self.old) (Word self.old.ops.items)) result
            (state_of self.new) }
    {
        let owed = followers_of(&self.ops);
        let ops = std::mem::replace(&mut self.ops, ArrayVec::new());
        self.add(Item::Word(ops), Part::Code(owed))
    }

    // A bracketed word with a destination is whole.
    fn close(&mut self, op: Op, dest: Value, spare: Option<u8>) -> Result<(), SourceErrorKind>
        requires code { section_part self.old.part ≡ Code 0 }
        ensures { IsAnswer (machine.with_part (inside_of self.old)
            (WordTo self.old.ops.items op (value_of dest) spare)) result (state_of self.new) }
    {
        let owed = followers_of(&self.ops);
        let ops = std::mem::replace(&mut self.ops, ArrayVec::new());
        let item = word_to(self.alloc, ops, op, dest, spare)?;
        self.add(item, Part::Code(owed))
    }
}

// A bracketed word with a destination.
fn word_to(
    alloc: Global,
    ops: ArrayVec<Op, 4>,
    op: Op,
    dest: Value,
    spare: Option<u8>,
) -> Result<Item, AllocError>
    ensures { IfOk result (λ item. item_of item ≡ WordTo ops.items op (value_of dest) spare) }
{
    let word = TransferWord {
        ops,
        op,
        dest,
        spare,
    };
    Ok(Item::WordTo(Box::new(alloc, word)?))
}

// The fault of a token that isn't allowed in brackets.
fn bracket_fault(token: &Meaning<'_>) -> SourceErrorKind
    ensures { result ≡ faults.bracket_fault (meaning_of token.now) }
{
    match *token {
        Meaning::OpenMark => SourceErrorKind::OpenBracket,
        _ => SourceErrorKind::BadWord,
    }
}
