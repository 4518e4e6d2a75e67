//! Where the path goes: the words of memory with the most turns on it.
ghost use Rattle.std.specs.Prelude.{◌≡◌, ◌++◌, IfOk, OnOk, length};
ghost use Rattle.ga_profile.specs.Lines as spec;
ghost use Rattle.ga_profile.specs.Lines.{node_ranks, path_lines};

use crate::profile::Profile;
use crate::rank::{rank_of, ranked};
use ga_place::Node;
use std::alloc::{AllocError, Global};

/// The rank of each node by its turns on the path.
pub(crate) fn node_ranks(paths: &[u64]) -> [usize; 144]
    requires { length paths.now ≡ 144 }
    ensures { result ≡ node_ranks paths.now }
{
    let mut ranks = [0; 144];
    for index in 0..144 {
        ranks[index] = rank_of(paths, index);
    }
    ranks
}

/// A word of memory of a node, or all its other code.
#[derive(Clone, Copy)]
pub struct PathLine {
    pub node: Node,
    /// The address of the word, or `None` for code that isn't in memory.
    pub word: Option<u8>,
    /// How many turns of the window it has on the path.
    pub turns: u64,
}

/// The words of memory with the most turns on the path of a profile, the most first: at most ten,
/// of the ten nodes with the most turns on it. Fails only when out of memory.
pub fn path_lines(alloc: Global, profile: &Profile) -> Result<Vec<PathLine>, AllocError>
    ensures { IfOk result (λ lines.
        lines.items ≡ path_lines profile.now.path.items profile.now.lines.items) }
{
    ranked_lines(alloc, profile.path.as_slice(), profile.lines.as_slice())
}

/// The ten lines with the most turns, the most first.
fn ranked_lines(alloc: Global, paths: &[u64], lines: &[u64]) -> Result<Vec<PathLine>, AllocError>
    requires paths { length paths.now ≡ 144 }
    requires lines { length lines.now ≡ 650 }
    ensures { IfOk result (λ found. found.items ≡ path_lines paths.now lines.now) }
{
    let mut found = Vec::new(alloc);
    for rank in 0..10 {
        let kind = ranked(lines, rank);
        push_line_if(&mut found, paths, kind, lines[kind])?;
    }
    Ok(found)
}

/// Adds a line if it has turns.
fn push_line_if(
    found: &mut Vec<PathLine>,
    paths: &[u64],
    kind: usize,
    turns: u64,
) -> Result<(), AllocError>
    requires { length paths.now ≡ 144 }
    ensures { OnOk result (found.new.items
        ≡ found.old.items ++ spec.line_if paths.now kind turns) }
{
    if turns == 0 {
        return Ok(());
    }
    found.push(PathLine {
        node: Node::at(ranked(paths, kind / 65)),
        word: word_of(kind % 65),
        turns,
    })?;
    Ok(())
}

/// The word of memory that is a line of a node.
pub(crate) fn word_of(line: usize) -> Option<u8>
    ensures { result ≡ spec.word_of line }
{
    if line < 64 { Some(line as u8) } else { None }
}
