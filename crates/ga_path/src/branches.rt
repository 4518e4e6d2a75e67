//! The subtrees of a tree of nodes.
ghost use Rattle.std.specs.Prelude.{◌≡◌, IfOk, OnOk};
ghost use Rattle.ga_path.specs.Tree.{chain, new_names, subtrees_with};
ghost use Rattle.ga_path.specs.inner.Branches.{subtrees_of};

use ga_place::Node;
use std::alloc::{AllocError, Global};

/// Subtrees in order: the root of the first, the subtrees of that root, and the other subtrees.
#[derive(Drop)]
pub(crate) enum Branches {
    End,
    Branch(Node, Box<Branches>, Box<Branches>),
}

/// Nodes as subtrees, each the only one of the node before it.
fn chain(alloc: Global, nodes: &[Node]) -> Result<Branches, AllocError>
    ensures { IfOk result (λ branches. subtrees_of branches ≡ chain nodes.now) }
{
    let Some((first, rest)) = nodes.split_first() else {
        return Ok(Branches::End);
    };
    let inner = Box::new(alloc, chain(alloc, rest)?)?;
    let beside = Box::new(alloc, Branches::End)?;
    Ok(Branches::Branch(*first, inner, beside))
}

impl Branches {
    /// What is left of a route behind the nodes along which it goes.
    pub(crate) fn new_nodes<'a>(&self, nodes: &'a [Node]) -> &'a [Node]
        ensures { result.now ≡ new_names (subtrees_of self.now) nodes.now }
    {
        let Branches::Branch(node, inner, beside) = self else {
            return nodes;
        };
        let Some((next, rest)) = nodes.split_first() else {
            return nodes;
        };
        if *node == *next {
            inner.new_nodes(rest)
        } else {
            beside.new_nodes(nodes)
        }
    }

    /// Adds the nodes of a route: those behind the nodes along which it goes.
    pub(crate) fn add(&mut self, alloc: Global, nodes: &[Node]) -> Result<(), AllocError>
        ensures { OnOk result
            (subtrees_of self.new ≡ subtrees_with (subtrees_of self.old) nodes.now) }
    {
        let Branches::Branch(node, inner, beside) = self else {
            *self = chain(alloc, nodes)?;
            return Ok(());
        };
        let Some((next, rest)) = nodes.split_first() else {
            return Ok(());
        };
        if *node == *next {
            inner.add(alloc, rest)
        } else {
            beside.add(alloc, nodes)
        }
    }
}
