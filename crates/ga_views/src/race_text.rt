//! The text for a verdict.
ghost use Rattle.std.specs.Prelude.{◌≡◌, ◌^◌, ◌++◌, ◌<◌, ℕ, IfOk, List, OnOk, string_bytes};
ghost use Rattle.ga_asm.specs.Assembling.{IsAssembled};
ghost use Rattle.ga_asm.specs.Image.{ImageView};
ghost use Rattle.ga_views.specs.RaceText.{IsRaceText, IsVerdictText, counted, counts_text, line_in_ram, line_text, names_text, open_text, period_text, place_text, ports_address, posted_text, race_text, reader_line, rest_text, round_text, side_column, some_spinning, source_lines, spinning_nodes, spinning_text, take_address, word_line};

use crate::witness::push_lines_to_go;
use bitflags::Flags;
use ga_asm::{Images, assemble};
use ga_debug::Pieces;
use ga_list::line_of;
use ga_node::Place;
use ga_place::{Node, Side, Sides, Where, locate};
use ga_race::{MultiportTake, Post, Race, Report, SideWord, Verdict};
use ga_source::{Program, parse};
use ga_waits::push_label;
use ga_word::Hex3;
use std::alloc::{AllocError, Global};
use std::fmt::Write;

/// A source text with its images.
#[derive(Drop)]
struct Source<'a> {
    program: &'a Program<'a>,
    images: &'a Images,
    /// How many lines of the input come before it.
    lines_before: usize,
}

/// The text for a report on the chip of an input.
pub fn verdict_text(
    alloc: Global,
    has_head: bool,
    input: &str,
    report: &Report,
) -> Result<String, AllocError>
    ensures { IfOk result (λ text. IsVerdictText has_head input.now report.now report.now.verdict
        (string_bytes text)) }
{
    match &report.verdict {
        Verdict::Race(race) => race_of(alloc, has_head, input, race),
        Verdict::AtRest { spins } => rest_of(alloc, report, spins),
        Verdict::Round { turns } => round_of(alloc, report, *turns),
        Verdict::Open => open_of(alloc, report),
    }
}

/// The text for a race on the chip of an input.
fn race_of(alloc: Global, has_head: bool, input: &str, race: &Race) -> Result<String, AllocError>
    ensures { IfOk result (λ text. IsRaceText has_head input.now race.now (string_bytes text)) }
{
    let lines = source_lines(alloc, has_head, input)?;
    let lines_before = if has_head { 2 } else { 0 };
    match parse(alloc, lines.as_str()) {
        Ok(program) => race_in(alloc, &program, lines_before, race),
        // The text was assembled before, so only memory can be missing.
        Err(_) => Err(AllocError),
    }
}

/// The source lines of an input: those of a head stand between its second line and the line `go`.
fn source_lines(alloc: Global, has_head: bool, input: &str) -> Result<String, AllocError>
    ensures { IfOk result (λ text. string_bytes text ≡ source_lines has_head input.now) }
{
    if !has_head {
        return String::from_str(alloc, input);
    }
    let mut lines = Pieces::new(input, '\n');
    let _profile = lines.next();
    let _loading = lines.next();
    let mut text = String::new(alloc);
    push_lines_to_go(&mut text, lines)?;
    Ok(text)
}

/// The text for a race in a program that some lines of the input come before.
fn race_in(
    alloc: Global,
    program: &Program<'_>,
    lines_before: usize,
    race: &Race,
) -> Result<String, AllocError>
    ensures { IfOk result (λ text. (images : List (ℕ × ImageView))
        × IsAssembled program.now images
        × (string_bytes text ≡ race_text program.now images lines_before race.now)) }
{
    match assemble(alloc, program) {
        Ok(images) => race_with(alloc, program, &images, lines_before, race),
        // The program was assembled before, so only memory can be missing.
        Err(_) => Err(AllocError),
    }
}

/// The text for a race in a program with its images: the node that reads, and the two words that it
/// may take.
#[tactic(auto, unfolding(crate::specs::RaceText::race_text))]
fn race_with(
    alloc: Global,
    program: &Program<'_>,
    images: &Images,
    lines_before: usize,
    race: &Race,
) -> Result<String, AllocError>
    ensures { IfOk result (λ text. string_bytes text
        ≡ race_text program.now images.now lines_before race.now) }
{
    let source = Source {
        program,
        images,
        lines_before,
    };
    let mut text = String::new(alloc);
    push_reader(
        alloc,
        &mut text,
        &source,
        &race.take,
        address_of(&race.take),
    )?;
    push_word(alloc, &mut text, &source, &race.take.taken)?;
    push_word(alloc, &mut text, &source, &race.left_out)?;
    Ok(text)
}

/// The address at which a node takes a word: P if it fetches, else that of the word that it
/// executes.
fn address_of(take: &MultiportTake) -> Option<u16>
    ensures { result ≡ take_address take.now.place take.now }
{
    match take.place {
        Place::Fetch => Some(take.p),
        _ => take.address,
    }
}

/// Adds the node that takes a word at an address, and the ports that it reads.
#[tactic(auto, unfolding(crate::specs::RaceText::reader_line))]
fn push_reader(
    alloc: Global,
    text: &mut String,
    source: &Source<'_>,
    take: &MultiportTake,
    at: Option<u16>,
) -> Result<(), AllocError>
    ensures { OnOk result (string_bytes text.new ≡ string_bytes text.old
        ++ reader_line source.now.program.now source.now.images.now source.now.lines_before
        take.now at) }
{
    write!(text, "race: {}", take.reader)?;
    push_place(text, source.images, take.reader, at)?;
    write!(text, " reads {}", Hex3::new(port_of(take.sides)))?;
    push_line(alloc, text, source, take.reader, at)?;
    text.push_str("; the schedule decides which word it takes\n")
}

/// The address of the ports of sides.
fn port_of(sides: Sides) -> u16
    ensures address { result ≡ ports_address sides }
    ensures bound { result < 2 ^ 9 }
{
    0x155 ^ u16::from(sides.bits())
}

/// Adds a word that a node may read: its side, and where its writer posted it.
#[tactic(auto, unfolding(crate::specs::RaceText::word_line))]
fn push_word(
    alloc: Global,
    text: &mut String,
    source: &Source<'_>,
    word: &SideWord,
) -> Result<(), AllocError>
    ensures { OnOk result (string_bytes text.new ≡ string_bytes text.old
        ++ word_line source.now.program.now source.now.images.now source.now.lines_before
        word.now) }
{
    let side = side_column(word.side);
    write!(text, "  {side} {} from {}", word.word, word.writer)?;
    push_post(alloc, text, source, word.writer, word.post)?;
    text.push_str("\n")
}

/// The name of a side, with blanks behind it up to five characters.
fn side_column(side: Side) -> &'static str
    ensures { result.now ≡ side_column side }
{
    match side {
        Side::Right => "right",
        Side::Down => "down ",
        Side::Left => "left ",
        Side::Up => "up   ",
    }
}

/// Adds where a node posted a word, if it was in the run.
fn push_post(
    alloc: Global,
    text: &mut String,
    source: &Source<'_>,
    node: Node,
    post: Option<Post>,
) -> Result<(), AllocError>
    ensures { OnOk result (string_bytes text.new ≡ string_bytes text.old
        ++ posted_text source.now.program.now source.now.images.now source.now.lines_before
        node post) }
{
    match post {
        Some(post) => {
            push_place(text, source.images, node, post.address)?;
            push_line(alloc, text, source, node, post.address)
        }
        None => Ok(()),
    }
}

/// Adds the address of the word that a node executes, with its label.
fn push_place(
    text: &mut String,
    images: &Images,
    node: Node,
    at: Option<u16>,
) -> Result<(), AllocError>
    ensures { OnOk result (string_bytes text.new
        ≡ string_bytes text.old ++ place_text images.now node at) }
{
    match at {
        Some(at) => {
            // P has ten bits.
            write!(text, " at {}", Hex3::new(at % 0x400))?;
            push_label(text, Some(images), node, locate(at))
        }
        None => text.push_str(" in its loader"),
    }
}

/// Adds the line of the input in which the word at an address begins.
fn push_line(
    alloc: Global,
    text: &mut String,
    source: &Source<'_>,
    node: Node,
    at: Option<u16>,
) -> Result<(), AllocError>
    ensures { OnOk result (string_bytes text.new ≡ string_bytes text.old
        ++ line_text source.now.program.now source.now.images.now source.now.lines_before
        node at) }
{
    match at {
        Some(at) => push_line_at(alloc, text, source, node, locate(at)),
        None => Ok(()),
    }
}

/// Adds the line of the input in which a word of RAM begins.
fn push_line_at(
    alloc: Global,
    text: &mut String,
    source: &Source<'_>,
    node: Node,
    at: Where,
) -> Result<(), AllocError>
    ensures { OnOk result (string_bytes text.new ≡ string_bytes text.old
        ++ line_in_ram source.now.program.now source.now.images.now source.now.lines_before
        node at) }
{
    let Where::Ram(index) = at else {
        return Ok(());
    };
    let line = line_of(
        alloc,
        source.program,
        source.images,
        node,
        usize::from(index),
    )?;
    match line {
        Some(line) => {
            let line = line.saturating_add(source.lines_before);
            write!(text, " (line {line})")
        }
        None => Ok(()),
    }
}

/// The text for a run that came to rest.
#[tactic(auto, unfolding(crate::specs::RaceText::rest_text))]
fn rest_of(alloc: Global, report: &Report, spins: &[bool; 144]) -> Result<String, AllocError>
    ensures { IfOk result (λ text. string_bytes text ≡ rest_text report.now spins.now) }
{
    let nodes = spinning(alloc, spins)?;
    let mut text = String::from_str(
        alloc,
        "no race: no schedule leads elsewhere\n  at rest after ",
    )?;
    push_counts(&mut text, report)?;
    push_spinning(&mut text, nodes.as_slice())?;
    text.push_str("\n")?;
    Ok(text)
}

/// The nodes that spin.
fn spinning(alloc: Global, spins: &[bool; 144]) -> Result<Vec<Node>, AllocError>
    ensures { IfOk result (λ nodes. nodes.items ≡ spinning_nodes spins.now) }
{
    let mut nodes = Vec::new(alloc);
    for index in 0..144 {
        if spins[index] {
            nodes.push(Node::at(index))?;
        }
    }
    Ok(nodes)
}

/// Adds the names of nodes that spin, if there are any.
fn push_spinning(text: &mut String, nodes: &[Node]) -> Result<(), AllocError>
    ensures { OnOk result (string_bytes text.new
        ≡ string_bytes text.old ++ spinning_text nodes.now) }
{
    if nodes.is_empty() {
        return Ok(());
    }
    push_some_spinning(text, nodes)
}

/// Adds their names.
#[tactic(auto, unfolding(crate::specs::RaceText::some_spinning))]
fn push_some_spinning(text: &mut String, nodes: &[Node]) -> Result<(), AllocError>
    ensures { OnOk result (string_bytes text.new
        ≡ string_bytes text.old ++ some_spinning nodes.now) }
{
    text.push_str("; spinning:")?;
    push_names(text, nodes)?;
    Ok(())
}

/// Adds the names of nodes, each behind a blank.
fn push_names(text: &mut String, nodes: &[Node]) -> Result<(), AllocError>
    ensures { OnOk result (string_bytes text.new
        ≡ string_bytes text.old ++ names_text nodes.now) }
{
    for node in nodes {
        write!(text, " {node}")?;
    }
    Ok(())
}

/// The text for a run that goes round.
#[tactic(auto, unfolding(crate::specs::RaceText::round_text))]
fn round_of(alloc: Global, report: &Report, period: u64) -> Result<String, AllocError>
    ensures { IfOk result (λ text. string_bytes text ≡ round_text report.now period) }
{
    let mut text = String::from_str(alloc, "no race in 2 rounds ")?;
    push_period(&mut text, period)?;
    text.push_str("  all is as before a round after ")?;
    push_counts(&mut text, report)?;
    text.push_str("\n")?;
    Ok(text)
}

/// Adds of how many turns a round is.
#[tactic(auto, unfolding(crate::specs::RaceText::period_text))]
fn push_period(text: &mut String, period: u64) -> Result<(), AllocError>
    ensures { OnOk result (string_bytes text.new ≡ string_bytes text.old ++ period_text period) }
{
    writeln!(text, "of {period} turns")
}

/// The text for a run that goes on.
#[tactic(auto, unfolding(crate::specs::RaceText::open_text))]
fn open_of(alloc: Global, report: &Report) -> Result<String, AllocError>
    ensures { IfOk result (λ text. string_bytes text ≡ open_text report.now) }
{
    let mut text = String::from_str(alloc, "no race so far: still moving after ")?;
    push_counts(&mut text, report)?;
    text.push_str("\n")?;
    Ok(text)
}

/// Adds how long the run was.
#[tactic(auto, unfolding(crate::specs::RaceText::counts_text))]
fn push_counts(text: &mut String, report: &Report) -> Result<(), AllocError>
    ensures { OnOk result (string_bytes text.new
        ≡ string_bytes text.old ++ counts_text report.now) }
{
    push_count(text, report.turns, "turn")?;
    text.push_str(", ")?;
    push_count(text, report.steps, "step")?;
    text.push_str(", ")?;
    push_count(text, report.multiport_reads, "multiport read")
}

/// Adds a number with its noun.
fn push_count(text: &mut String, count: u64, noun: &str) -> Result<(), AllocError>
    ensures { OnOk result (string_bytes text.new
        ≡ string_bytes text.old ++ counted count noun.now) }
{
    let ending = if count == 1 { "" } else { "s" };
    write!(text, "{count} {noun}{ending}")
}
