//! A line for each node that began.
ghost use Rattle.std.specs.Prelude.{◌≡◌, ◌++◌, OnOk, length, string_bytes};
ghost use Rattle.ga_profile.specs.Table as spec;
ghost use Rattle.ga_profile.specs.Table.{HEAD, LEGEND, means, row, rows, shares, words};

use crate::bar::push_bar;
use crate::node_pass::NodePass;
use crate::node_turns::NodeTurns;
use crate::share::{push_number, push_share, share_of};
use ga_place::Node;
use std::alloc::{AllocError, Global};
use std::fmt::Write;

/// Adds the heads of the columns.
#[tactic(auto, unfolding(crate::specs::Table::HEAD))]
pub(crate) fn push_head(text: &mut String) -> Result<(), AllocError>
    ensures { OnOk result (string_bytes text.new ≡ string_bytes text.old ++ HEAD) }
{
    text.push_str(
        "    share of the turns, % 0                    100         words       a pass\n",
    )?;
    text.push_str(
        "node work take read rest |-----+-----+-----+------| path   in   out  turns works\n",
    )?;
    Ok(())
}

/// Adds what the signs mean.
#[tactic(auto, unfolding(crate::specs::Table::LEGEND))]
pub(crate) fn push_legend(text: &mut String) -> Result<(), AllocError>
    ensures { OnOk result (string_bytes text.new ≡ string_bytes text.old ++ LEGEND) }
{
    text.push_str("# works  ? waits for a word  ! waits for its word to be read\n")?;
    text.push_str("rest: b boots  ~ spins  x stopped  blank idle\n")?;
    text.push_str("path: the run waits for this node\n")
}

/// Adds the lines of all nodes that began.
#[tactic(auto, unfolding(crate::specs::Table::rows))]
pub(crate) fn push_rows(
    text: &mut String,
    alloc: Global,
    nodes: &[NodeTurns],
    passes: &[Option<NodePass>],
    path: &[u64],
    turns: u64,
) -> Result<(), AllocError>
    requires nodes { length nodes.now ≡ 144 }
    requires passes { length passes.now ≡ 144 }
    requires path { length path.now ≡ 144 }
    ensures { OnOk result (string_bytes text.new
        ≡ string_bytes text.old ++ rows nodes.now passes.now path.now turns) }
{
    for index in 0..144 {
        push_row(
            text,
            alloc,
            Node::at(index),
            &nodes[index],
            passes[index],
            path[index],
            turns,
        )?;
    }
    Ok(())
}

/// Adds the line of a node, if it began.
fn push_row(
    text: &mut String,
    alloc: Global,
    node: Node,
    did: &NodeTurns,
    pass: Option<NodePass>,
    path: u64,
    turns: u64,
) -> Result<(), AllocError>
    ensures { OnOk result (string_bytes text.new
        ≡ string_bytes text.old ++ spec.row_if did.now.began node did.now pass path turns) }
{
    match did.began {
        Some(_) => push_line(text, alloc, node, did, pass, path, turns),
        None => Ok(()),
    }
}

/// Adds the line of a node.
#[tactic(auto, unfolding(crate::specs::Table::row))]
fn push_line(
    text: &mut String,
    alloc: Global,
    node: Node,
    did: &NodeTurns,
    pass: Option<NodePass>,
    path: u64,
    turns: u64,
) -> Result<(), AllocError>
    ensures { OnOk result (string_bytes text.new
        ≡ string_bytes text.old ++ row node did.now pass path turns) }
{
    write!(text, "{node}")?;
    push_shares(text, alloc, did, turns)?;
    text.push_str(" |")?;
    push_bar(text, &did.counts, turns)?;
    text.push_str("|")?;
    push_words(text, alloc, did, path, turns)?;
    push_pass(text, alloc, pass)
}

/// Adds the shares of the turns in which a node worked, waited for a word, waited for a reader, and
/// did neither.
#[tactic(auto, unfolding(crate::specs::Table::shares))]
fn push_shares(
    text: &mut String,
    alloc: Global,
    did: &NodeTurns,
    turns: u64,
) -> Result<(), AllocError>
    ensures { OnOk result (string_bytes text.new
        ≡ string_bytes text.old ++ shares did.now turns) }
{
    let counts = &did.counts;
    push_share(text, alloc, 6, share_of(counts.works, turns))?;
    push_share(text, alloc, 5, share_of(counts.word_waits, turns))?;
    push_share(text, alloc, 5, share_of(counts.reader_waits, turns))?;
    push_share(text, alloc, 5, share_of(rest_of(did, turns), turns))
}

/// In how many turns a node did neither work nor wait.
fn rest_of(did: &NodeTurns, turns: u64) -> u64
    ensures { result ≡ spec.rest_of did.now turns }
{
    let counts = &did.counts;
    turns
        .saturating_sub(counts.works)
        .saturating_sub(counts.word_waits)
        .saturating_sub(counts.reader_waits)
}

/// Adds the share of the turns that a node has on the path, and how many words it took and posted.
#[tactic(auto, unfolding(crate::specs::Table::words))]
fn push_words(
    text: &mut String,
    alloc: Global,
    did: &NodeTurns,
    path: u64,
    turns: u64,
) -> Result<(), AllocError>
    ensures { OnOk result (string_bytes text.new
        ≡ string_bytes text.old ++ words did.now path turns) }
{
    push_share(text, alloc, 5, share_of(path, turns))?;
    push_number(text, alloc, 5, did.taken)?;
    push_number(text, alloc, 6, did.posted)
}

/// Adds how many turns a pass of a node takes, and in how many of them it works; and the end of its
/// line.
fn push_pass(text: &mut String, alloc: Global, pass: Option<NodePass>) -> Result<(), AllocError>
    ensures { OnOk result (string_bytes text.new
        ≡ string_bytes text.old ++ spec.pass_text pass) }
{
    match pass {
        Some(pass) => push_means(text, alloc, pass),
        None => text.push_str("      .     .\n"),
    }
}

/// Adds the means of a pass, and the end of the line.
#[tactic(auto, unfolding(crate::specs::Table::means))]
fn push_means(text: &mut String, alloc: Global, pass: NodePass) -> Result<(), AllocError>
    ensures { OnOk result (string_bytes text.new ≡ string_bytes text.old ++ means pass) }
{
    push_number(text, alloc, 7, pass.turns)?;
    push_number(text, alloc, 6, pass.works)?;
    text.push_str("\n")
}
