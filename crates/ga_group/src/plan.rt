ghost use Rattle.std.specs.Prelude.{◌≡◌, ◌≤◌, ◌++◌, None, length};
ghost use Rattle.std.specs.List.{AllByRecursion, concat};
ghost use Rattle.ga_place.specs.Node.{IsNodeName, is_among};
ghost use Rattle.ga_group.specs.Plan.{first_repeated, groups_in, groups_of, plan_fault, planned};

use crate::error::PlanError;
use ga_place::Node;
use std::marker::Model;

/// Which nodes each worker tries: at least one worker, at least one node for each, and no node
/// twice. A contract sees the list of the workers' groups, each a list of names.
#[derive(Drop)]
pub struct Plan {
    groups: Vec<Vec<Node>>,
}

impl Model for Plan {
    ghost use Rattle.std.specs.Prelude.{◌≡◌, ◌≤◌, None, length};
    ghost use Rattle.std.specs.List.{concat};
    ghost use Rattle.ga_group.specs.Plan.{Groups, groups_of, plan_fault};

    ghost Value = { Groups };

    ghost view = { λ plan. groups_of plan.groups };

    ghost invariant = { λ plan. (plan_fault (groups_of plan.groups) ≡ None)
        × (length (concat (groups_of plan.groups)) ≤ 144) };
}

impl Plan {
    /// The plan by which worker i tries the nodes of group i, in their order. The first fault is
    /// reported: there is no group; then, group by group, it has no node, or a node of it occurs in
    /// the plan before. The groups then come back. It allocates nothing. (Plans are this project's
    /// own: profile.)
    pub fn new(groups: Vec<Vec<Node>>) -> Result<Self, (PlanError, Vec<Vec<Node>>)>
        ensures { result ≡ planned (plan_fault (groups_of groups)) (groups_of groups) groups }
    {
        match fault_of(&groups) {
            None => Ok(Plan { groups }),
            Some(fault) => Err((fault, groups)),
        }
    }

    /// The groups, one for each worker, with 144 nodes at most in all.
    pub(crate) fn groups(&self) -> &[Vec<Node>]
        ensures value { groups_in result.now ≡ self.now }
        ensures faultless { plan_fault self.now ≡ None }
        ensures most { length (concat self.now) ≤ 144 }
    {
        &self.groups
    }

    /// The groups that the plan was made of. It allocates nothing.
    pub fn into_groups(self) -> Vec<Vec<Node>>
        ensures { groups_of result ≡ self }
    {
        self.groups
    }
}

/// The fault of groups as a plan, if there is one.
fn fault_of(groups: &[Vec<Node>]) -> Option<PlanError>
    ensures fault { result ≡ plan_fault (groups_in groups.now) }
    ensures most { result ≡ None → length (concat (groups_in groups.now)) ≤ 144 }
{
    if groups.is_empty() {
        return Some(PlanError::NoWorker);
    }
    for worker in 0..groups.len() {
        let group = &groups[worker];
        if group.is_empty() {
            return Some(PlanError::Empty(worker));
        }
        if let Some(node) = first_repeated(&groups[..worker], group) {
            return Some(PlanError::Repeated(node));
        }
    }
    None
}

/// The first node of a group that occurs in groups before it, or earlier in its own.
fn first_repeated(before: &[Vec<Node>], group: &[Node]) -> Option<Node>
    ensures node { result ≡ first_repeated (concat (groups_in before.now)) group.now }
    ensures named { result ≡ None → AllByRecursion IsNodeName group.now }
{
    for at in 0..group.len() {
        let node = group[at];
        // Its name is in the grid. From this the proof gets that a plan has at most 144 nodes.
        let _name = node.name();
        if stands_in(before, &group[..at], node) {
            return Some(node);
        }
    }
    None
}

/// Whether a node is in one of the groups, or in the first part of the next.
fn stands_in(groups: &[Vec<Node>], front: &[Node], node: Node) -> bool
    ensures { result ≡ is_among node (concat (groups_in groups.now) ++ front.now) }
{
    for group in groups {
        if group.contains(&node) {
            return true;
        }
    }
    front.contains(&node)
}
