//! The turns that a profile is of.
ghost use Rattle.std.specs.Prelude.{◌≡◌, None};
ghost use Rattle.ga_profile.specs.Window as spec;

use crate::node_turns::NodeTurns;

/// Where the window of a profile begins.
#[derive(Clone, Copy, Debug, PartialEq, Eq)]
pub enum WindowStart {
    /// With the turn in which the first node begins.
    FirstNode,
    /// With the turn in which the last node begins.
    LastNode,
    /// With the turn of this number.
    Turn(u32),
}

/// A window: the turns from the first one to the one before the end.
#[derive(Clone, Copy)]
pub struct Window {
    pub first: u64,
    pub end: u32,
}

impl Window {
    /// How many turns it has.
    pub fn length(self) -> u64
        ensures { result ≡ spec.length_of self }
    {
        u64::from(self.end).saturating_sub(self.first)
    }
}

/// The window up to the last step that isn't a spin, by what the nodes did in all turns.
#[tactic(auto, unfolding(crate::specs::Window::window_of))]
pub(crate) fn window_of(start: WindowStart, nodes: &[NodeTurns], made: u32) -> Window
    ensures { result ≡ spec.window_of start nodes.now made }
{
    Window {
        first: first_of(start, nodes),
        end: end_within(nodes, made),
    }
}

/// The first turn of the window.
fn first_of(start: WindowStart, nodes: &[NodeTurns]) -> u64
    ensures { result ≡ spec.first_of start nodes.now }
{
    match start {
        WindowStart::FirstNode => first_began(nodes).unwrap_or(0),
        WindowStart::LastNode => last_began(nodes).unwrap_or(0),
        WindowStart::Turn(number) => u64::from(number),
    }
}

/// The turn in which the first node began.
fn first_began(nodes: &[NodeTurns]) -> Option<u64>
    ensures { result ≡ spec.first_began None nodes.now }
{
    let mut found = None;
    for turns in nodes {
        found = earlier(found, turns.began);
    }
    found
}

/// The turn in which the last node began.
fn last_began(nodes: &[NodeTurns]) -> Option<u64>
    ensures { result ≡ spec.last_began None nodes.now }
{
    let mut found = None;
    for turns in nodes {
        found = later(found, turns.began);
    }
    found
}

fn earlier(one: Option<u64>, other: Option<u64>) -> Option<u64>
    ensures { result ≡ spec.earlier one other }
{
    match (one, other) {
        (Some(a), Some(b)) => Some(a.min(b)),
        (Some(a), None) => Some(a),
        (None, b) => b,
    }
}

fn later(one: Option<u64>, other: Option<u64>) -> Option<u64>
    ensures { result ≡ spec.later one other }
{
    match (one, other) {
        (Some(a), Some(b)) => Some(a.max(b)),
        (Some(a), None) => Some(a),
        (None, b) => b,
    }
}

/// The turn behind the last step that isn't a spin, among the turns that were made.
fn end_within(nodes: &[NodeTurns], made: u32) -> u32
    ensures { result ≡ spec.end_within nodes.now made }
{
    match last_step(nodes) {
        Some(turn) if turn < u64::from(made) => turn as u32 + 1,
        Some(_) => made,
        None => 0,
    }
}

/// The turn of the last step that isn't a spin.
fn last_step(nodes: &[NodeTurns]) -> Option<u64>
    ensures { result ≡ spec.last_step None nodes.now }
{
    let mut found = None;
    for turns in nodes {
        found = later(found, turns.last);
    }
    found
}
