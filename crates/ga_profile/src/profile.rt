//! What each node of a chip did in the turns of a run.
ghost use Rattle.std.specs.Prelude.{◌≡◌, IfOk, length};
ghost use Rattle.ga_chip.specs.Chip.{state_of};
ghost use Rattle.ga_chip.specs.Run.{ran, turns_of};
ghost use Rattle.ga_trace.specs.Depth.{all_depths};
ghost use Rattle.ga_profile.specs.NodePass.{node_passes};
ghost use Rattle.ga_profile.specs.Lines.{line_turns};
ghost use Rattle.ga_profile.specs.Path.{path_turns};
ghost use Rattle.ga_profile.specs.Profile as spec;
ghost use Rattle.ga_profile.specs.Faster.{shorter_window};
ghost use Rattle.ga_profile.specs.Bottleneck.{node_on_path};
ghost use Rattle.ga_profile.specs.Profile.{chip_at_end, nodes_in, shorter_in, window_in};

use crate::bottleneck::most_on_path;
use crate::faster::{goals_of, shorter_window};
use crate::node_pass::{NodePass, node_passes};
use crate::node_turns::{NodeTurns, Wait, turns_between, wait_to_take, waited};
use crate::path::{line_turns, path_turns};
use crate::turn_watch::TurnWatch;
use crate::window::{Window, WindowStart, window_of};
use ga_chip::Chip;
use ga_node::{Need, Place};
use ga_place::Node;
use ga_trace::{StackDepths, all_depths, run};
use std::alloc::{AllocError, Global};

/// What each node did in a window of a run.
#[derive(Drop)]
pub struct Profile {
    pub window: Window,
    /// In order of name.
    pub nodes: Vec<NodeTurns>,
    /// The pass of each node, in order of name, if it makes three.
    pub passes: Vec<Option<NodePass>>,
    /// How many turns of the window each node has on the path, in order of name.
    pub path: Vec<u64>,
    /// How many turns each line has on the path, of the ten nodes with the most turns on it, the
    /// node with the most first: 64 for the words of its memory, and one for all other code.
    pub lines: Vec<u64>,
    /// How many turns the window would have if the node with the most turns on the path were twice
    /// as fast, which means that it makes own steps two a turn; `None` unless they are fewer.
    pub shorter: Option<u32>,
    /// How deep the stacks of each node were in all turns up to the end of the window, in order of
    /// name.
    pub depths: Vec<StackDepths>,
    /// The chip at the end of the window.
    pub chip: Chip,
    ghost all: { length nodes.items ≡ 144 },
    ghost each: { length passes.items ≡ 144 },
    ghost paths: { length path.items ≡ 144 },
    ghost places: { length lines.items ≡ 650 },
    ghost stacks: { length depths.items ≡ 144 },
}

/// What each node does in a run of a chip: in its turns until no node moves but those that spin, or
/// at most `most`. The chip itself makes no turn. Fails only when out of memory.
pub fn measure(
    alloc: Global,
    chip: &Chip,
    start: WindowStart,
    most: u32,
) -> Result<Profile, AllocError>
    ensures window { IfOk result (λ profile. profile.window ≡ window_in start most chip.now) }
    ensures nodes { IfOk result (λ profile.
        profile.nodes.items ≡ nodes_in (window_in start most chip.now) chip.now) }
    ensures passes { IfOk result (λ profile.
        profile.passes.items ≡ node_passes (window_in start most chip.now) chip.now) }
    ensures path { IfOk result (λ profile.
        profile.path.items ≡ path_turns (window_in start most chip.now) chip.now) }
    ensures lines { IfOk result (λ profile. profile.lines.items
        ≡ line_turns (window_in start most chip.now) chip.now profile.path.items) }
    ensures shorter { IfOk result (λ profile. profile.shorter
        ≡ shorter_in (window_in start most chip.now) most chip.now profile.path.items) }
    ensures depths { IfOk result (λ profile. profile.depths.items
        ≡ all_depths (window_in start most chip.now).end chip.now) }
    ensures chip { IfOk result (λ profile.
        profile.chip ≡ chip_at_end (window_in start most chip.now) chip.now) }
{
    let made = turns_to_rest(alloc, chip, most)?;
    let mut copy = chip.copied(alloc)?;
    let all = watched(alloc, &mut copy, 0, made)?;
    let goals = goals_of(alloc, &copy, all.as_slice())?;
    let window = window_of(start, all.as_slice(), made);
    profile_in(alloc, chip, window, goals.as_slice())
}

/// What each node does in a window of the run of a chip, with these goals of the nodes.
fn profile_in(
    alloc: Global,
    chip: &Chip,
    window: Window,
    goals: &[u64],
) -> Result<Profile, AllocError>
    requires { length goals.now ≡ 144 }
    ensures window { IfOk result (λ profile. profile.window ≡ window) }
    ensures nodes { IfOk result (λ profile.
        profile.nodes.items ≡ nodes_in window chip.now) }
    ensures passes { IfOk result (λ profile.
        profile.passes.items ≡ node_passes window chip.now) }
    ensures path { IfOk result (λ profile.
        profile.path.items ≡ path_turns window chip.now) }
    ensures lines { IfOk result (λ profile.
        profile.lines.items ≡ line_turns window chip.now profile.path.items) }
    ensures shorter { IfOk result (λ profile. profile.shorter
        ≡ shorter_window window (node_on_path profile.path.items) goals.now chip.now) }
    ensures depths { IfOk result (λ profile.
        profile.depths.items ≡ all_depths window.end chip.now) }
    ensures chip { IfOk result (λ profile. profile.chip ≡ chip_at_end window chip.now) }
{
    let passes = node_passes(alloc, chip, window)?;
    let mut copy = chip.copied(alloc)?;
    let watched = watched(alloc, &mut copy, window.first, window.end)?;
    let path = path_turns(alloc, chip, window, watched.as_slice())?;
    let lines = line_turns(alloc, chip, window, watched.as_slice(), path.as_slice())?;
    let on_path = Node::at(most_on_path(path.as_slice()));
    let shorter = shorter_window(alloc, chip, window, on_path, goals)?;
    let nodes = ended(alloc, &copy, window, watched.as_slice())?;
    let depths = all_depths(alloc, chip, window.end)?;
    Ok(Profile {
        window,
        nodes,
        passes,
        path,
        lines,
        shorter,
        depths,
        chip: copy,
    })
}

/// In how many turns a chip comes to rest, at most `most`.
fn turns_to_rest(alloc: Global, chip: &Chip, most: u32) -> Result<u32, AllocError>
    ensures { IfOk result (λ turns. turns ≡ spec.turns_to_rest most chip.now) }
{
    let mut copy = chip.copied(alloc)?;
    Ok(run(&mut copy, most).turns)
}

/// Makes turns of a chip. Answers what each node did in them from a turn on, up to its last step.
fn watched(
    alloc: Global,
    chip: &mut Chip,
    from: u64,
    count: u32,
) -> Result<Vec<NodeTurns>, AllocError>
    ensures chip { IfOk result (λ _. chip.new ≡ ran chip.old (turns_of count)) }
    ensures nodes { IfOk result (λ nodes. nodes.items ≡ spec.watched from count chip.old) }
    ensures all { IfOk result (λ nodes. length nodes.items ≡ 144) }
{
    let mut watch = TurnWatch::new(alloc, from)?;
    watch.advance(chip, 0, count);
    Ok(watch.nodes)
}

/// The turns of all nodes with those behind their last steps, up to the end of a window.
pub fn ended(
    alloc: Global,
    chip: &Chip,
    window: Window,
    nodes: &[NodeTurns],
) -> Result<Vec<NodeTurns>, AllocError>
    requires { length nodes.now ≡ 144 }
    ensures nodes { IfOk result (λ all. all.items ≡ spec.ended window nodes.now chip.now) }
    ensures all { IfOk result (λ all. length all.items ≡ 144) }
{
    let mut all = Vec::new(alloc);
    for index in 0..144 {
        all.push(node_ended(chip, window, &nodes[index], Node::at(index)))?;
    }
    Ok(all)
}

/// The turns of a node with those behind its last step.
fn node_ended(chip: &Chip, window: Window, turns: &NodeTurns, node: Node) -> NodeTurns
    ensures { result ≡ spec.with_end window turns.now (state_of chip.now node) }
{
    let state = chip.state(node);
    let wait = wait_at_end(turns, state.place(), state.need());
    let count = turns_between(window.first, turns.last, u64::from(window.end));
    NodeTurns {
        counts: waited(&turns.counts, wait, count),
        ..*turns
    }
}

/// What a node of this need waits for at the end; before it began it was idle.
fn wait_at_end(turns: &NodeTurns, place: Place, need: Need) -> Wait
    ensures { result ≡ spec.wait_at_end turns.now.began place need }
{
    match turns.began {
        Some(_) => wait_for(place, need),
        None => Wait::Work,
    }
}

/// What a node waits for that has started.
fn wait_for(place: Place, need: Need) -> Wait
    ensures { result ≡ spec.wait_for place need }
{
    match need {
        Need::Take(_) => wait_to_take(place),
        Need::Post(_, _) | Need::Check(_) => Wait::Reader,
        Need::Stopped(_) => Wait::Never,
        Need::Own | Need::Input => Wait::Work,
    }
}
