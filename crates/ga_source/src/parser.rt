//! The parser: it takes one token at a time, and refuses the first that can't continue a right
//! text.
ghost use Rattle.std.specs.Prelude.{◌≡◌, ◌≢◌, ◌≤◌, ◌++◌, ◌∷◌, [], length, map, false, not, IfOk, IfErr, Ok, Err, OnOk, List, ℕ};
ghost use Rattle.ga_pack.specs.Model.Layout.{names_in};
ghost use Rattle.ga_pack.specs.Model.Source as words;
ghost use Rattle.ga_pack.specs.Model.Source.{labels_with};
ghost use Rattle.ga_pack.specs.Model.Token as token;
ghost use Rattle.ga_pack.specs.Model.Token.{end};
ghost use Rattle.ga_source.specs.Item.{item_of};
ghost use Rattle.ga_source.specs.Section.{section_of};
ghost use Rattle.ga_source.specs.inner.Machine as machine;
ghost use Rattle.ga_source.specs.inner.Machine.{Good, IsConsistent, item_added, sections_closed, finished, nothing};
ghost use Rattle.ga_source.specs.inner.Meaning.{IsShort, meaning_of};
ghost use Rattle.ga_source.specs.inner.Parser.{IsAnswer, Took, done_of, inside_of, labels_of, names_of, section_part, state_of};
ghost use Rattle.ga_pack.specs.declared.error_kind.SourceErrorKind.TheVariants.{Memory};
ghost use Rattle.ga_source.specs.declared.parser.Position.TheVariants as at;

mod brackets;
mod items;

use crate::item::{Item, Value};
use crate::meaning::{Meaning, is_reserved, meaning_at};
use crate::name::Name;
use crate::section::Section;
use arrayvec::ArrayVec;
use ga_pack::SourceErrorKind;
use ga_place::Node;
use ga_word::Op;
use indexmap::{IndexMap, IndexSet};
use std::alloc::Global;

// The part of a section that an item is in.
#[derive(Clone, Copy)]
enum Part {
    // In the code part, with this many followers of a bracketed word still missing.
    Code(usize),
    // Behind `data`.
    Data,
}

// The parser's place.
#[derive(Clone, Copy)]
enum Position {
    // No token was taken.
    Nothing,
    // Behind `node`.
    Naming,
    // In a section, behind a whole item or at the section's begin.
    Between,
    // Behind an opcode that takes a destination, outside brackets.
    BehindOp(Op),
    BehindComma,
    // In brackets, behind opcodes that take no destination.
    InWord,
    // In brackets, behind an opcode that takes a destination; and behind its destination, `/` and
    // spare bits.
    BehindDestOp(Op),
    BehindDest(Op, Value),
    BehindSlash(Op, Value),
    BehindSpare(Op, Value, u8),
}

// The sections that are done, the section that is open, and the item that has started.
#[derive(Drop)]
pub(crate) struct Parser {
    alloc: Global,
    sections: IndexMap<Node, Section>,
    node: Node,
    items: Vec<Item>,
    labels: IndexSet<Name>,
    part: Part,
    has_word: bool,
    position: Position,
    // The opcodes of a bracketed word, without one that takes a destination.
    ops: ArrayVec<Op, 4>,
}

impl Parser {
    /// A parser that has taken no token.
    pub(crate) fn new(alloc: Global) -> Self
        ensures state { state_of result ≡ nothing }
        ensures empty { result.sections.entries ≡ [] }
    {
        Parser {
            alloc,
            sections: IndexMap::new(alloc),
            node: Node::new(0).unwrap(),
            items: Vec::new(alloc),
            labels: IndexSet::new(alloc),
            part: Part::Code(0),
            has_word: false,
            position: Position::Nothing,
            ops: ArrayVec::new(),
        }
    }

    // The item is whole; the next one is in this part.
    #[inline(always)]
    fn add(&mut self, item: Item, part: Part) -> Result<(), SourceErrorKind>
        requires no_label { (labels : List (List ℕ)) → labels_with (item_of item) labels ≡ labels }
        ensures ok { OnOk result (state_of self.new ≡ item_added (inside_of self.old) (item_of item)
            (section_part part)) }
        ensures err { IfErr result (λ kind. kind ≡ Memory) }
    {
        let makes_word = item.makes_word();
        self.items.push(item)?;
        self.has_word = self.has_word || makes_word;
        self.part = part;
        self.position = Position::Between;
        Ok(())
    }

    // Before the first `node`.
    fn take_nothing(&mut self, token: &Meaning<'_>) -> Result<(), SourceErrorKind>
        requires position { self.old.position ≡ at.Nothing }
        requires empty { self.old.sections.entries ≡ [] }
        ensures { Took (state_of self.old) (meaning_of token.now) result (state_of self.new) }
    {
        match *token {
            Meaning::Node => {
                self.position = Position::Naming;
                Ok(())
            }
            _ => Err(SourceErrorKind::NoNode),
        }
    }

    // Whether a section of this node came before.
    fn is_begun(&self, node: Node) -> bool
        ensures { result ≡ words.is_named node (names_of self.now) }
    {
        self.sections.contains_key(&node)
    }

    // Behind `node`.
    fn take_name(&mut self, token: &Meaning<'_>) -> Result<(), SourceErrorKind>
        requires position { self.old.position ≡ at.Naming }
        ensures { Took (state_of self.old) (meaning_of token.now) result (state_of self.new) }
    {
        match *token {
            Meaning::NodeName(node) => {
                if self.is_begun(node) {
                    return Err(SourceErrorKind::DuplicateNode);
                }
                self.node = node;
                self.items.clear();
                self.labels.truncate(0);
                self.part = Part::Code(0);
                self.has_word = false;
                self.position = Position::Between;
                Ok(())
            }
            _ => Err(SourceErrorKind::BadNode),
        }
    }

    // Behind a whole item.
    fn take_between(&mut self, token: &Meaning<'_>) -> Result<(), SourceErrorKind>
        requires position { self.old.position ≡ at.Between }
        requires consistent { IsConsistent (state_of self.old) }
        requires short { IsShort (meaning_of token.now) }
        ensures { Took (state_of self.old) (meaning_of token.now) result (state_of self.new) }
    {
        match *token {
            Meaning::Node => {
                if !self.has_word {
                    return Err(SourceErrorKind::Empty);
                }
                self.end_section()?;
                self.position = Position::Naming;
                Ok(())
            }
            Meaning::Label(name) => self.take_label(name),
            _ => self.take_item(token),
        }
    }

    // The section that is open ends.
    fn end_section(&mut self) -> Result<(), SourceErrorKind>
        requires new { words.is_named self.old.node (names_of self.old) ≡ false }
        requires labels { labels_of self.old ≡ names_in (map item_of self.old.items.items) }
        ensures done { OnOk result (done_of self.new ≡ sections_closed (inside_of self.old)) }
        ensures names { OnOk result (names_of self.new ≡ names_of self.old ++ self.old.node ∷ []) }
        ensures err { IfErr result (λ kind. kind ≡ Memory) }
    {
        // The next section has room for as many items.
        let room = Vec::with_capacity(self.alloc, self.items.len())?;
        let items = std::mem::replace(&mut self.items, room);
        let mut labels = Vec::with_capacity(self.alloc, self.labels.len())?;
        labels.extend_from_slice(self.labels.as_slice())?;
        self.sections.insert(self.node, Section { items, labels })?;
        Ok(())
    }

    // Adds a label to the open section; answers whether it is new.
    fn add_label(&mut self, name: Name) -> Result<bool, SourceErrorKind>
        ensures new { IfOk result (λ is_new. is_new ≡ not
            (words.is_among name.bytes (labels_of self.old))) }
        ensures ok { OnOk result (self.new ≡ record self.old { labels = self.new.labels }) }
        ensures labels { words.is_among name.bytes (labels_of self.old) ≡ false
            → OnOk result (labels_of self.new ≡ labels_of self.old ++ name.bytes ∷ []) }
        ensures err { IfErr result (λ kind. kind ≡ Memory) }
    {
        Ok(self.labels.insert(name)?)
    }

    // A label, which is allowed wherever an item is.
    fn take_label(&mut self, name: &str) -> Result<(), SourceErrorKind>
        requires position { self.old.position ≡ at.Between }
        requires short { length name.now ≤ 16 }
        ensures { IsAnswer (machine.take_label (inside_of self.old) name.now) result
            (state_of self.new) }
    {
        if is_reserved(name) {
            return Err(SourceErrorKind::ReservedLabel);
        }
        let name = name_of(name);
        if !self.add_label(name)? {
            return Err(SourceErrorKind::DuplicateLabel);
        }
        self.items.push(Item::Label(name))?;
        Ok(())
    }

    /// Takes a token, or refuses it.
    pub(crate) fn take(&mut self, token: &Meaning<'_>) -> Result<(), SourceErrorKind>
        // what each token that was taken leaves, and a name or label of at most 16 bytes
        requires good { Good (state_of self.old) }
        requires consistent { IsConsistent (state_of self.old) }
        requires empty { self.old.position ≡ at.Nothing → self.old.sections.entries ≡ [] }
        requires short { IsShort (meaning_of token.now) }
        ensures { Took (state_of self.old) (meaning_of token.now) result (state_of self.new) }
    {
        match self.position {
            Position::Nothing => self.take_nothing(token),
            Position::Naming => self.take_name(token),
            Position::Between => self.take_between(token),
            Position::BehindOp(op) => self.take_dest(op, token),
            Position::BehindComma => self.take_plain(token),
            Position::InWord => self.take_slot(token),
            Position::BehindDestOp(op) => self.take_field(op, token),
            Position::BehindDest(op, dest) => self.take_behind_dest(op, dest, token),
            Position::BehindSlash(op, dest) => self.take_spare(op, dest, token),
            Position::BehindSpare(op, dest, spare) => self.take_close(op, dest, spare, token),
        }
    }

    /// Takes the text of a token, which is behind the token `node` or not, or refuses it. It
    /// returns whether the token is `node`.
    pub(crate) fn take_text(
        &mut self,
        is_behind_node: bool,
        text: &[u8],
    ) -> Result<bool, SourceErrorKind>
        requires good { Good (state_of self.old) }
        requires consistent { IsConsistent (state_of self.old) }
        requires empty { self.old.position ≡ at.Nothing → self.old.sections.entries ≡ [] }
        ensures taken { Took (state_of self.old) (token.meaning_at is_behind_node text.now) result
            (state_of self.new) }
        ensures node { IfOk result (λ is_node. is_node ≡ token.is_node
            (token.meaning_at is_behind_node text.now)) }
    {
        match meaning_at(is_behind_node, text) {
            Ok(meaning) => {
                self.take(&meaning)?;
                Ok(matches!(meaning, Meaning::Node))
            }
            Err(kind) => Err(kind),
        }
    }

    /// The sections of the text, which ends here, or its fault.
    pub(crate) fn finish(self) -> Result<IndexMap<Node, Section>, SourceErrorKind>
        requires consistent { IsConsistent (state_of self) }
        ensures ok { IfOk result (λ sections. machine.take (state_of self) end
            ≡ Ok (finished (map section_of sections.entries))) }
        ensures err { IfErr result (λ kind. kind ≢ Memory
            → machine.take (state_of self) end ≡ Err kind) }
    {
        let mut parser = self;
        parser.end_text()?;
        Ok(parser.sections)
    }

    // The text ends at the parser's place.
    fn end_text(&mut self) -> Result<(), SourceErrorKind>
        requires consistent { IsConsistent (state_of self.old) }
        ensures ok { OnOk result (machine.take (state_of self.old) end
            ≡ Ok (finished (done_of self.new))) }
        ensures err { IfErr result (λ kind. kind ≢ Memory
            → machine.take (state_of self.old) end ≡ Err kind) }
    {
        match self.position {
            Position::Nothing => Err(SourceErrorKind::NoNode),
            Position::Naming => Err(SourceErrorKind::BadNode),
            Position::Between => {
                if !self.has_word {
                    return Err(SourceErrorKind::Empty);
                }
                self.end_section()
            }
            Position::BehindOp(_) | Position::BehindComma => Err(SourceErrorKind::BadToken),
            _ => Err(SourceErrorKind::OpenBracket),
        }
    }
}

// A name in place.
fn name_of(text: &str) -> Name
    requires { length text.now ≤ 16 }
    ensures { result.bytes ≡ text.now }
{
    match Name::new(text) {
        Some(name) => name,
        None => unreachable!(),
    }
}
