//! The words of memory of the path, those of several nodes that read alike together.
ghost use Rattle.std.specs.Prelude.{◌≡◌, ◌≤◌, ◌++◌, IfOk, OnOk, length, map, string_bytes};
ghost use Rattle.ga_waits.specs.Label.{images_in};
ghost use Rattle.ga_profile.specs.Alike as spec;

use crate::code::code_of;
use crate::lines::{PathLine, word_of};
use crate::rank::ranked;
use ga_asm::Images;
use ga_place::Node;
use std::alloc::{AllocError, Global};

/// Words of memory of several nodes that read alike, or a single line of a node.
#[derive(Clone, Copy)]
pub(crate) struct LineGroup {
    /// The first of them, with the turns of all.
    pub(crate) first: PathLine,
    /// How many others there are.
    pub(crate) others: usize,
}

/// The ten groups with the most turns, the most first, by the turns of each node and each line on
/// the path.
pub(crate) fn path_groups(
    alloc: Global,
    images: Option<&Images>,
    paths: &[u64],
    lines: &[u64],
) -> Result<Vec<LineGroup>, AllocError>
    requires paths { length paths.now ≡ 144 }
    requires lines { length lines.now ≡ 650 }
    ensures { IfOk result (λ found. found.items
        ≡ spec.path_groups (images_in images.entry) paths.now lines.now) }
{
    let found = codes_of(alloc, images, paths, lines)?;
    let codes = found.as_slice();
    let turns = group_turns(alloc, codes, lines)?;
    ranked_groups(alloc, codes, paths, turns.as_slice())
}

/// The same, by the code of each line and the turns of its group.
fn ranked_groups(
    alloc: Global,
    codes: &[String],
    paths: &[u64],
    turns: &[u64],
) -> Result<Vec<LineGroup>, AllocError>
    requires paths { length paths.now ≡ 144 }
    requires turns { length turns.now ≡ 650 }
    ensures { IfOk result (λ found. found.items
        ≡ spec.ranked_groups (map string_bytes codes.now) paths.now turns.now) }
{
    let mut found = Vec::new(alloc);
    for rank in 0..10 {
        let kind = ranked(turns, rank);
        push_group_if(&mut found, codes, paths, kind, turns[kind])?;
    }
    Ok(found)
}

/// Adds a group if it has turns.
fn push_group_if(
    found: &mut Vec<LineGroup>,
    codes: &[String],
    paths: &[u64],
    kind: usize,
    turns: u64,
) -> Result<(), AllocError>
    requires { length paths.now ≡ 144 }
    ensures { OnOk result (found.new.items ≡ found.old.items
        ++ spec.group_if (map string_bytes codes.now) paths.now kind turns) }
{
    if turns == 0 {
        return Ok(());
    }
    let first = PathLine {
        node: Node::at(ranked(paths, kind / 65)),
        word: word_of(kind % 65),
        turns,
    };
    let others = alike_among(codes, kind, codes.len()).saturating_sub(1);
    found.push(LineGroup { first, others })?;
    Ok(())
}

/// The code of each line that has turns on the path.
fn codes_of(
    alloc: Global,
    images: Option<&Images>,
    paths: &[u64],
    lines: &[u64],
) -> Result<Vec<String>, AllocError>
    requires paths { length paths.now ≡ 144 }
    requires lines { length lines.now ≡ 650 }
    ensures { IfOk result (λ codes. map string_bytes codes.items
        ≡ spec.codes_of (images_in images.entry) paths.now lines.now) }
{
    let mut codes = Vec::new(alloc);
    for kind in 0..650 {
        codes.push(code_if(alloc, images, paths, kind, lines[kind])?)?;
    }
    Ok(codes)
}

/// The code of a line if it has turns.
fn code_if(
    alloc: Global,
    images: Option<&Images>,
    paths: &[u64],
    kind: usize,
    turns: u64,
) -> Result<String, AllocError>
    requires { length paths.now ≡ 144 }
    ensures { IfOk result (λ code. string_bytes code
        ≡ spec.code_if (images_in images.entry) paths.now kind turns) }
{
    if turns == 0 {
        return Ok(String::new(alloc));
    }
    code_of(
        alloc,
        images,
        Node::at(ranked(paths, kind / 65)),
        word_of(kind % 65),
    )
}

/// The turns of the group of each line that is the first of its group; 0 for the others.
fn group_turns(alloc: Global, codes: &[String], lines: &[u64]) -> Result<Vec<u64>, AllocError>
    ensures turns { IfOk result (λ turns. turns.items
        ≡ spec.group_turns (map string_bytes codes.now) lines.now) }
    ensures all { IfOk result (λ turns. length turns.items ≡ 650) }
{
    let mut turns = Vec::new(alloc);
    for kind in 0..650 {
        turns.push(turns_at(codes, lines, kind))?;
    }
    Ok(turns)
}

/// The turns of the group of a line, if it is the first of it; else 0.
fn turns_at(codes: &[String], lines: &[u64], kind: usize) -> u64
    ensures { result ≡ spec.turns_at (map string_bytes codes.now) lines.now kind }
{
    if alike_among(codes, kind, kind) == 0 {
        turns_alike(codes, lines, kind)
    } else {
        0
    }
}

/// How many turns the lines have that are like one.
#[tactic(auto, unfolding(crate::specs::Alike::turns_alike))]
fn turns_alike(codes: &[String], lines: &[u64], kind: usize) -> u64
    ensures { result ≡ spec.turns_alike (map string_bytes codes.now) lines.now kind }
{
    let mut turns: u64 = 0;
    for other in 0..lines.len() {
        if is_alike(codes, kind, other) {
            turns = turns.saturating_add(lines[other]);
        }
    }
    turns
}

/// How many of the first lines are like one.
#[tactic(auto, unfolding(crate::specs::Alike::alike_among))]
fn alike_among(codes: &[String], kind: usize, count: usize) -> usize
    ensures { result ≡ spec.alike_among (map string_bytes codes.now) kind count }
{
    let mut alike: usize = 0;
    for other in 0..count {
        alike += usize::from(is_alike(codes, kind, other));
    }
    alike
}

/// Whether two lines are one, or read alike.
fn is_alike(codes: &[String], one: usize, other: usize) -> bool
    ensures { result ≡ spec.is_alike (map string_bytes codes.now) one other }
{
    one == other || is_same(code_at(codes, one), code_at(codes, other))
}

fn is_same(code: &str, other: &str) -> bool
    ensures { result ≡ spec.is_same code.now other.now }
{
    !code.is_empty() && code == other
}

/// The code of a line.
fn code_at(codes: &[String], kind: usize) -> &str
    ensures { result.now ≡ spec.code_at (map string_bytes codes.now) kind }
{
    match codes.get(kind) {
        Some(code) => code.as_str(),
        None => "",
    }
}
