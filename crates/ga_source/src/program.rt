//! The program of a text.
ghost use Rattle.std.specs.Prelude.{◌≡◌, ◌≢◌, IfErr, IfOk, List, [], map};
ghost use Rattle.ga_pack.specs.Model.Program.{IsFault, IsProgram, PlacedSection, placed_sections};
ghost use Rattle.ga_pack.specs.Model.Source.{Sections};
ghost use Rattle.ga_pack.specs.Model.Text.{places_of};
ghost use Rattle.ga_pack.specs.declared.error_kind.SourceErrorKind.TheVariants.{Memory};
ghost use Rattle.ga_source.specs.Error.{error_place};
ghost use Rattle.ga_source.specs.Section.{section_of};
ghost use Rattle.ga_source.specs.Program.{HasNoProgram, IsRight, sections_in};
ghost use Rattle.ga_source.specs.inner.Program.{IsReported};

use crate::error::SourceError;
use crate::parser::Parser;
use crate::places::token_place;
use crate::section::Section;
use crate::token::Texts;
use ga_pack::SourceErrorKind;
use ga_place::Node;
use indexmap::IndexMap;
use std::alloc::Global;
use std::marker::Model;

/// The program of a text: a section for each node that the text names, in its order. A contract
/// sees it as the list of its sections, with the places of their items.
#[derive(Drop)]
pub struct Program<'a> {
    // The places of the items are found in it.
    pub(crate) text: &'a str,
    pub(crate) sections: IndexMap<Node, Section>,
}

impl<'a> Model for Program<'a> {
    ghost Value = { List PlacedSection };

    ghost view = { λ program. placed_sections (places_of program.text.now)
        (map section_of program.sections.entries) };

    ghost invariant = { λ program. Sections [] (map section_of program.sections.entries) };
}

impl<'a> Program<'a> {
    /// The sections by their nodes, in the text's order.
    pub fn sections(&self) -> &IndexMap<Node, Section>
        ensures value { map section_of result.now.entries ≡ sections_in self.now }
        ensures right { IsRight self.now }
    {
        &self.sections
    }
}

/// The program of a text, or the first fault of the text with its place. (The texts are this
/// project's own: profile.)
///
/// Fails with `Memory` only when out of memory. Each other kind is that of the first token, or of
/// the text's end, that can't continue a right text.
pub fn parse(alloc: Global, text: &str) -> Result<Program<'_>, SourceError>
    ensures program { IfOk result (λ program. IsProgram text.now program) }
    // it is the only program of the text
    ensures only { IfOk result (λ program. (other : List PlacedSection) → IsProgram text.now other
        → other ≡ program) }
    // each fault but `Memory` is the first one, at its place
    ensures fault { IfErr result (λ error. error.kind ≢ Memory
        → IsFault text.now error.kind (error_place error)) }
    // and the text has no program
    ensures none { IfErr result (λ error. error.kind ≢ Memory → HasNoProgram text.now) }
{
    let mut parser = Parser::new(alloc);
    let mut is_behind_node = false;
    let mut taken = 0;
    for run in Texts::new(text) {
        match parser.take_text(is_behind_node, run) {
            Ok(is_node) => is_behind_node = is_node,
            Err(kind) => return Err(fault_at(alloc, text, taken, kind)),
        }
        taken += 1;
    }
    match parser.finish() {
        Ok(sections) => Ok(Program { text, sections }),
        Err(kind) => Err(fault_at(alloc, text, taken, kind)),
    }
}

// The fault of a token, by its number from 0, or of the text's end.
#[inline(never)]
fn fault_at(alloc: Global, text: &str, token: usize, kind: SourceErrorKind) -> SourceError
    ensures { IsReported text.now token kind result }
{
    if kind != SourceErrorKind::Memory {
        if let Ok(place) = token_place(alloc, text, token) {
            return SourceError {
                kind,
                line: place.line,
                column: place.column,
            };
        }
    }
    SourceError {
        kind: SourceErrorKind::Memory,
        line: 1,
        column: 1,
    }
}
