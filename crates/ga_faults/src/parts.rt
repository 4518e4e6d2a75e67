//! The part of a text that has one of its sections.
ghost use Rattle.std.specs.Prelude.{◌≡◌, IfOk, find, map, option_map, string_bytes};
ghost use Rattle.ga_pack.specs.Model.Text.{lines_of};
ghost use Rattle.ga_faults.specs.Sections.{has_line, part_at, part_in, part_of, section_of};

use crate::naming::section_naming;
use crate::sections::{Section, section_starts, sections_at};
use ga_place::Node;
use std::alloc::{AllocError, Global};

/// The part of the section of a text that has a line, from 1, or the text itself if none has it.
/// Fails only when out of memory. (The rules are this project's own: profile.)
#[tactic(auto, unfolding(crate::specs::Sections::part_at))]
pub fn part_at(alloc: Global, text: &str, line: usize) -> Result<String, AllocError>
    ensures { IfOk result (λ part. string_bytes part ≡ part_at text.now line) }
{
    let starts = section_starts(alloc, text)?;
    let head = starts.first().copied().unwrap_or(0);
    let sections = sections_at(alloc, &starts)?;
    match section_with(&sections, line) {
        Some(section) => part_text(alloc, &lines_of(alloc, text)?, head, *section),
        None => String::from_str(alloc, text),
    }
}

/// The part of the section of a text that has a line, from 1. If none has it, as at a line of a
/// shared body, it is the part of the first section that names a node, or the text itself if none
/// does. Fails only when out of memory. (The rules are this project's own: profile.)
#[tactic(auto, unfolding(crate::specs::Sections::part_of))]
pub fn part_of(alloc: Global, text: &str, line: usize, node: Node) -> Result<String, AllocError>
    ensures { IfOk result (λ part. string_bytes part ≡ part_of text.now line node) }
{
    let starts = section_starts(alloc, text)?;
    let head = starts.first().copied().unwrap_or(0);
    let sections = sections_at(alloc, &starts)?;
    match section_of(alloc, text, &sections, line, node)? {
        Some(section) => part_text(alloc, &lines_of(alloc, text)?, head, section),
        None => String::from_str(alloc, text),
    }
}

/// The one of some sections that has a line, or else the first one that names a node.
fn section_of(
    alloc: Global,
    text: &str,
    sections: &[Section],
    line: usize,
    node: Node,
) -> Result<Option<Section>, AllocError>
    ensures { IfOk result (λ section. section ≡ section_of text.now line node sections.now) }
{
    match section_with(sections, line) {
        Some(section) => Ok(Some(*section)),
        None => section_naming(alloc, text, sections, node),
    }
}

/// The first of some sections that has a line.
fn section_with(sections: &[Section], line: usize) -> Option<&Section>
    ensures { option_map (λ section. section.now) result ≡ find (has_line line) sections.now }
{
    sections.iter().find(|section| section.has_line(line))
}

/// The lines of a text, without the LF between them.
pub(crate) fn lines_of(alloc: Global, text: &str) -> Result<Vec<&str>, AllocError>
    ensures { IfOk result (λ lines. map (λ line. line.now) lines.items ≡ lines_of text.now) }
{
    text.split('\n').collect(alloc)
}

/// The part of a section of a text with these lines. The first section begins at the line `head`.
pub(crate) fn part_text(
    alloc: Global,
    lines: &[&str],
    head: usize,
    section: Section,
) -> Result<String, AllocError>
    ensures { IfOk result (λ part. string_bytes part
        ≡ part_in (map (λ line. line.now) lines.now) head section) }
{
    let own = section.lines_in(lines);
    let mut kept = Vec::new(alloc);
    for index in 0..own.len() {
        kept.push(section.kept_line(head, index + 1, own[index]))?;
    }
    kept.join(alloc, "\n")
}
