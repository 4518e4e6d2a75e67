//! What a run waits for, and how long it would be if that were faster.
ghost use Rattle.std.specs.Prelude.{◌≡◌, ◌<◌, ◌++◌, IfOk, OnOk, length, string_bytes};
ghost use Rattle.ga_waits.specs.Waits.{all_ring_lines, text_of};
ghost use Rattle.ga_profile.specs.Bottleneck as spec;
ghost use Rattle.ga_profile.specs.Bottleneck.{DEADLOCK, bottleneck_text, faster_text, sentence, sentence_at, waited_text, works_text};
ghost use Rattle.ga_profile.specs.Window.{length_of};

use crate::node_turns::NodeTurns;
use crate::profile::Profile;
use crate::unread::push_unread;
use ga_chip::Chip;
use ga_place::Node;
use ga_waits::push_rings;
use std::alloc::{AllocError, Global};
use std::fmt::Write;

/// The bottleneck of a run, what the run gains if that is faster, and the rings of nodes that wait
/// for one another, or else the nodes whose words are never read, as in
/// [`profile_text`](crate::profile_text). Fails only when out of memory. (The text is this
/// project's own: profile.)
pub fn bottleneck_text(alloc: Global, profile: &Profile) -> Result<String, AllocError>
    ensures { IfOk result (λ text. string_bytes text
        ≡ bottleneck_text profile.now.chip profile.now.nodes.items profile.now.path.items
        profile.now.shorter (length_of profile.now.window)) }
{
    let mut text = String::new(alloc);
    push_bottleneck(&mut text, alloc, profile)?;
    Ok(text)
}

/// Adds the bottleneck of a run, what the run gains if that is faster, and who waits for good.
#[tactic(auto, unfolding(crate::specs::Bottleneck::bottleneck_text))]
pub(crate) fn push_bottleneck(
    text: &mut String,
    alloc: Global,
    profile: &Profile,
) -> Result<(), AllocError>
    ensures { OnOk result (string_bytes text.new ≡ string_bytes text.old
        ++ bottleneck_text profile.now.chip profile.now.nodes.items profile.now.path.items
        profile.now.shorter (length_of profile.now.window)) }
{
    let rings = ring_lines(alloc, &profile.chip)?;
    if rings.is_empty() {
        push_unread(text, alloc, &profile.chip)?;
        push_sentence(text, profile)
    } else {
        push_deadlock(text)?;
        text.push_str(rings.as_str())
    }
}

/// The lines of rings.
fn ring_lines(alloc: Global, chip: &Chip) -> Result<String, AllocError>
    ensures { IfOk result (λ text. string_bytes text ≡ text_of (all_ring_lines chip.now)) }
{
    let mut rings = String::new(alloc);
    push_rings(&mut rings, chip)?;
    Ok(rings)
}

/// Adds that the bottleneck is a deadlock.
#[tactic(auto, unfolding(crate::specs::Bottleneck::DEADLOCK))]
fn push_deadlock(text: &mut String) -> Result<(), AllocError>
    ensures { OnOk result (string_bytes text.new ≡ string_bytes text.old ++ DEADLOCK) }
{
    text.push_str("Bottleneck: the deadlock. The nodes of a ring wait for one another for good.\n")
}

/// Adds the bottleneck of a run without rings.
fn push_sentence(text: &mut String, profile: &Profile) -> Result<(), AllocError>
    ensures { OnOk result (string_bytes text.new ≡ string_bytes text.old
        ++ sentence profile.now.nodes.items profile.now.path.items profile.now.shorter
        (length_of profile.now.window)) }
{
    let turns = profile.window.length();
    let paths = profile.path.as_slice();
    let nodes = profile.nodes.as_slice();
    let most = most_on_path(paths);
    push_node(text, nodes, paths, profile.shorter, turns, most)
}

/// Adds that the run waits most for the node of this index, or that this has no turn on the path.
#[tactic(auto, unfolding(crate::specs::Bottleneck::sentence_at))]
fn push_node(
    text: &mut String,
    nodes: &[NodeTurns],
    paths: &[u64],
    shorter: Option<u32>,
    turns: u64,
    most: usize,
) -> Result<(), AllocError>
    requires nodes { length nodes.now ≡ 144 }
    requires paths { length paths.now ≡ 144 }
    requires most { most < 144 }
    ensures { OnOk result (string_bytes text.new
        ≡ string_bytes text.old ++ sentence_at nodes.now paths.now shorter turns most) }
{
    if paths[most] == 0 || turns == 0 {
        return text.push_str("Bottleneck: none. No node works in these turns.\n");
    }
    let waited = whole_percent(paths[most], turns);
    let works = whole_percent(works_at(nodes, most), turns);
    push_waited(text, Node::at(most), waited)?;
    push_works(text, works)?;
    push_faster(text, shorter, turns)
}

/// The index of the first node with the most turns on the path.
pub(crate) fn most_on_path(paths: &[u64]) -> usize
    requires { length paths.now ≡ 144 }
    ensures value { result ≡ spec.most_on_path paths.now 144 }
    ensures bound { result < 144 }
{
    let mut most = 0;
    for index in 0..144 {
        most = more_on_path(paths, most, index);
    }
    most
}

/// The index of the one of two nodes with more turns on the path.
fn more_on_path(paths: &[u64], most: usize, index: usize) -> usize
    requires paths { length paths.now ≡ 144 }
    requires most { most < 144 }
    requires index { index < 144 }
    ensures value { result ≡ spec.more_on_path paths.now most index }
    ensures bound { result < 144 }
{
    if paths[most] < paths[index] {
        index
    } else {
        most
    }
}

/// In how many turns of the window a node works, by its index.
fn works_at(nodes: &[NodeTurns], index: usize) -> u64
    requires nodes { length nodes.now ≡ 144 }
    requires index { index < 144 }
    ensures { result ≡ spec.works_at nodes.now index }
{
    nodes[index].counts.works
}

/// A part in percent, rounded down.
fn whole_percent(part: u64, all: u64) -> u128
    requires { 0 < all }
    ensures { result ≡ spec.whole_percent part all }
{
    u128::from(part) * 100 / u128::from(all)
}

/// Adds in how many percent of the turns the run waits for a node.
#[tactic(auto, unfolding(crate::specs::Bottleneck::waited_text))]
fn push_waited(text: &mut String, node: Node, waited: u128) -> Result<(), AllocError>
    ensures { OnOk result (string_bytes text.new
        ≡ string_bytes text.old ++ waited_text node waited) }
{
    write!(
        text,
        "Bottleneck: {node}. The run waits for it in {waited} % of the turns, "
    )?;
    Ok(())
}

/// Adds in how many percent of them it works.
#[tactic(auto, unfolding(crate::specs::Bottleneck::works_text))]
fn push_works(text: &mut String, works: u128) -> Result<(), AllocError>
    ensures { OnOk result (string_bytes text.new ≡ string_bytes text.old ++ works_text works) }
{
    writeln!(text, "and it works in {works} %.")?;
    Ok(())
}

/// Adds how many percent of them the run would take if the node were twice as fast.
#[tactic(auto, unfolding(crate::specs::Bottleneck::faster_text))]
fn push_faster(text: &mut String, shorter: Option<u32>, turns: u64) -> Result<(), AllocError>
    requires { 0 < turns }
    ensures { OnOk result (string_bytes text.new
        ≡ string_bytes text.old ++ faster_text shorter turns) }
{
    match shorter {
        Some(shorter) => {
            let percent = percent_up(u64::from(shorter), turns);
            text.push_str("If it worked twice as fast, the run would take ")?;
            writeln!(text, "{percent} % of them.")?;
        }
        None => text.push_str("If it worked twice as fast, the run would be no shorter.\n")?,
    }
    Ok(())
}

/// A part in percent, rounded up.
fn percent_up(part: u64, all: u64) -> u128
    requires { 0 < all }
    ensures { result ≡ spec.percent_up part all }
{
    (u128::from(part) * 100 + u128::from(all) - 1) / u128::from(all)
}
