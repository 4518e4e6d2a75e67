//! A profile as JSON: one object.
ghost use Rattle.std.specs.Prelude.{◌≡◌, ◌<◌, ◌≤◌, ◌∷◌, [], ◌++◌, get_or, IfOk, OnOk, length, map, string_bytes};
ghost use Rattle.serde_json.specs.Written.{compact_text};
ghost use Rattle.serde_json.specs.View.{view};
ghost use Rattle.ga_json.specs.Profile as spec;
ghost use Rattle.ga_json.specs.Profile.{line_data, lines_data, name_data, node_data, pass_data, passed_data, profile_data, stacks_data, stuck_data, turns_data, window_data, word_data, words_data};

use ga_place::Node;
use ga_profile::{
    NodePass, NodeTurns, PathLine, Profile, TurnCounts, Window, bottleneck_text, path_lines,
    unread_nodes,
};
use ga_trace::StackDepths;
use ga_word::Hex3;
use serde_json::{Value, json};
use std::alloc::{AllocError, Global};

/// A profile as JSON, on one line without its end: `bottleneck`, the sentences of its text;
/// `lines`, where the path goes, an object for each line of the text; `nodes`, an object for each
/// node that began, in order of name; `stuck`, the names of the nodes whose words are never read;
/// and `window`, the turn in which it begins, and the one behind its last. Turns and words are
/// counts. Fails only when out of memory. (The form is this project's own: profile.)
pub fn profile_json(alloc: Global, profile: &Profile) -> Result<String, AllocError>
    ensures { IfOk result (λ text. string_bytes text ≡ compact_text (profile_data profile.now)) }
{
    let value = profile_value(alloc, profile)?;
    value.to_string(alloc)
}

/// The bottleneck, where the path goes, the nodes that began, those that are stuck, and the window.
#[tactic(auto, unfolding(crate::specs::Profile::profile_data))]
fn profile_value(alloc: Global, profile: &Profile) -> Result<Value, AllocError>
    ensures { IfOk result (λ value. view value ≡ profile_data profile.now) }
{
    let bottleneck = bottleneck_text(alloc, profile)?;
    let lines = lines_value(alloc, profile)?;
    let nodes = nodes_value(alloc, profile)?;
    let stuck = stuck_value(alloc, profile)?;
    let window = window_value(alloc, profile.window)?;
    json!(in alloc; {
        "bottleneck": bottleneck,
        "lines": lines,
        "nodes": nodes,
        "stuck": stuck,
        "window": window
    })
}

/// Where the path goes.
#[tactic(auto, unfolding(crate::specs::Profile::lines_data))]
fn lines_value(alloc: Global, profile: &Profile) -> Result<Value, AllocError>
    ensures { IfOk result (λ value. view value ≡ lines_data profile.now) }
{
    let lines = path_lines(alloc, profile)?;
    let mut values = Vec::new(alloc);
    for line in &lines {
        values.push(line_value(alloc, line)?)?;
    }
    Ok(Value::Array(values))
}

/// A word of memory of a node, or `null` for its other code, and its turns on the path.
#[tactic(auto, unfolding(crate::specs::Profile::line_data))]
fn line_value(alloc: Global, line: &PathLine) -> Result<Value, AllocError>
    ensures { IfOk result (λ value. view value ≡ line_data line.now) }
{
    let name = line.node.to_string(alloc)?;
    let path = line.turns;
    let word = word_value(alloc, line.word)?;
    json!(in alloc; {"name": name, "path": path, "word": word})
}

/// The address of a word of memory, in hex.
fn word_value(alloc: Global, word: Option<u8>) -> Result<Value, AllocError>
    ensures { IfOk result (λ value. view value ≡ word_data word) }
{
    match word {
        Some(word) => Ok(Value::String(Hex3::new(u16::from(word)).to_string(alloc)?)),
        None => Ok(Value::Null),
    }
}

/// The nodes whose words are never read.
#[tactic(auto, unfolding(crate::specs::Profile::stuck_data))]
fn stuck_value(alloc: Global, profile: &Profile) -> Result<Value, AllocError>
    ensures { IfOk result (λ value. view value ≡ stuck_data profile.now) }
{
    let nodes = unread_nodes(alloc, &profile.chip)?;
    let mut names = Vec::new(alloc);
    for node in &nodes {
        names.push(name_value(alloc, *node)?)?;
    }
    Ok(Value::Array(names))
}

/// The name of a node.
fn name_value(alloc: Global, node: Node) -> Result<Value, AllocError>
    ensures { IfOk result (λ value. view value ≡ name_data node) }
{
    Ok(Value::String(node.to_string(alloc)?))
}

/// The nodes that began.
#[tactic(auto, unfolding(crate::specs::Profile::nodes_data))]
fn nodes_value(alloc: Global, profile: &Profile) -> Result<Value, AllocError>
    ensures { IfOk result (λ value. view value ≡ spec.nodes_data profile.now) }
{
    let mut nodes = Vec::new(alloc);
    for index in 0..144 {
        push_node(&mut nodes, alloc, profile, index)?;
    }
    Ok(Value::Array(nodes))
}

/// Adds the node with an index, if it began.
fn push_node(
    nodes: &mut Vec<Value>,
    alloc: Global,
    profile: &Profile,
    index: usize,
) -> Result<(), AllocError>
    requires { index < 144 }
    ensures { OnOk result (map view nodes.new.items
        ≡ map view nodes.old.items ++ spec.node_at profile.now index) }
{
    let turns = profile.nodes[index];
    if turns.began.is_some() {
        let node = node_value(
            alloc,
            Node::at(index),
            &turns,
            profile.passes[index],
            profile.path[index],
            &profile.depths[index],
        )?;
        nodes.push(node)?;
    }
    Ok(())
}

/// What a node did.
#[tactic(auto, unfolding(crate::specs::Profile::node_data))]
fn node_value(
    alloc: Global,
    node: Node,
    turns: &NodeTurns,
    pass: Option<NodePass>,
    path: u64,
    depths: &StackDepths,
) -> Result<Value, AllocError>
    ensures { IfOk result (λ value. view value ≡ node_data node turns.now pass path depths.now) }
{
    let name = node.to_string(alloc)?;
    let pass = pass_value(alloc, pass)?;
    let stacks = stacks_value(alloc, depths)?;
    let counts = turns_value(alloc, &turns.counts)?;
    let words = words_value(alloc, turns)?;
    json!(in alloc; {
        "name": name,
        "pass": pass,
        "path": path,
        "stacks": stacks,
        "turns": counts,
        "words": words
    })
}

/// How long a pass takes, and in how many of its turns the node works; `null` without one.
#[tactic(auto, unfolding(crate::specs::Profile::pass_data))]
fn pass_value(alloc: Global, pass: Option<NodePass>) -> Result<Value, AllocError>
    ensures { IfOk result (λ value. view value ≡ pass_data pass) }
{
    match pass {
        Some(pass) => {
            let NodePass { turns, works } = pass;
            json!(in alloc; {"turns": turns, "works": works})
        }
        None => Ok(Value::Null),
    }
}

/// The most words of each stack, and the address of the first push for which it had no room.
#[tactic(auto, unfolding(crate::specs::Profile::stacks_data))]
fn stacks_value(alloc: Global, depths: &StackDepths) -> Result<Value, AllocError>
    ensures { IfOk result (λ value. view value ≡ stacks_data depths.now) }
{
    let data = depths.data_stack;
    let below = depths.return_stack;
    let data_passed = passed_value(alloc, data.passed)?;
    let below_passed = passed_value(alloc, below.passed)?;
    json!(in alloc; {
        "data": data.most,
        "data_passed": data_passed,
        "return": below.most,
        "return_passed": below_passed
    })
}

/// The address of a push for which a stack had no room, in ten bits and hex.
fn passed_value(alloc: Global, passed: Option<u16>) -> Result<Value, AllocError>
    ensures { IfOk result (λ value. view value ≡ passed_data passed) }
{
    match passed {
        Some(address) => Ok(Value::String(Hex3::new(address % 0x400).to_string(alloc)?)),
        None => Ok(Value::Null),
    }
}

/// In how many turns a node did what.
#[tactic(auto, unfolding(crate::specs::Profile::turns_data))]
fn turns_value(alloc: Global, counts: &TurnCounts) -> Result<Value, AllocError>
    ensures { IfOk result (λ value. view value ≡ turns_data counts.now) }
{
    let TurnCounts {
        boots,
        works,
        word_waits,
        reader_waits,
        spins,
        stops,
    } = *counts;
    json!(in alloc; {
        "boots": boots,
        "reader_waits": reader_waits,
        "spins": spins,
        "stops": stops,
        "word_waits": word_waits,
        "works": works
    })
}

/// How many words a node took and posted.
#[tactic(auto, unfolding(crate::specs::Profile::words_data))]
fn words_value(alloc: Global, turns: &NodeTurns) -> Result<Value, AllocError>
    ensures { IfOk result (λ value. view value ≡ words_data turns.now) }
{
    let taken = turns.taken;
    let posted = turns.posted;
    json!(in alloc; {"in": taken, "out": posted})
}

/// The first turn of a window, and the one behind its last.
#[tactic(auto, unfolding(crate::specs::Profile::window_data))]
fn window_value(alloc: Global, window: Window) -> Result<Value, AllocError>
    ensures { IfOk result (λ value. view value ≡ window_data window) }
{
    let first = window.first;
    let end = u64::from(window.end);
    json!(in alloc; {"end": end, "first": first})
}
