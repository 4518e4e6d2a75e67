ghost use Rattle.std.specs.Prelude.{◌≡◌, ◌≤◌, ◌<◌, ◌⊎◌, Err, IfErr, IfOk, Ok, length, true};
ghost use Rattle.std.specs.List.{list_any};
ghost use Rattle.ga_place.specs.Node.{is_among, is_edge};
ghost use Rattle.ga_path.specs.Tree.{AreNear, IsSound, IsTreeFault, lone_tree, tree_of, with_route};
ghost use Rattle.ga_path.specs.inner.Branches.{count_in, subtrees_of};
ghost use Rattle.ga_path.specs.declared.error.TreeError.TheVariants.{Memory};

use crate::branches::Branches;
use crate::error::TreeError;
use crate::route::Route;
use ga_place::Node;
use std::alloc::Global;
use std::marker::Model;

/// A tree of nodes: a root at an edge of the chip, and each other node a neighbour of the one above
/// it. No node occurs twice. A contract sees the root, its subtrees by the names of their nodes,
/// and the list of all nodes.
#[derive(Drop)]
pub struct Tree {
    root: Node,
    branches: Branches,
    nodes: Vec<Node>,
}

impl Model for Tree {
    ghost use Rattle.std.specs.Prelude.{◌≤◌, length};
    ghost use Rattle.ga_path.specs.Tree.{IsSound, TreeView};
    ghost use Rattle.ga_path.specs.inner.Branches.{subtrees_of};
    ghost use Rattle.ga_path.specs.inner.TreeCode.{tree_code};

    ghost Value = { TreeView };

    ghost coded = { tree_code };

    ghost view = { λ tree. record {
      root = tree.root;
      subtrees = subtrees_of tree.branches;
      nodes = tree.nodes.items;
    } };

    ghost invariant = { λ tree.
        IsSound (record {
          root = tree.root;
          subtrees = subtrees_of tree.branches;
          nodes = tree.nodes.items;
        })
        × (length tree.nodes.items ≤ 144) };
}

impl Tree {
    /// The tree of these routes, in their order, or their first fault: there is none; then, route
    /// by route, it begins at another node than the first one, or reaches a new node that is in the
    /// tree. A route goes along the tree as long as its next node is the root of a subtree there;
    /// each node behind becomes the last subtree of the one before it. So a route that the tree has
    /// adds nothing. (Trees are this project's own: profile.) Fails with [`TreeError::Memory`] only
    /// when out of memory.
    pub fn new(alloc: Global, routes: &[Route]) -> Result<Self, TreeError>
        ensures tree { IfOk result (λ tree. tree_of routes.now ≡ Ok tree) }
        ensures sound { IfOk result (λ tree. IsSound tree) }
        ensures fault { IfErr result (λ error. IsTreeFault routes.now error) }
    {
        let Some(first) = routes.first() else {
            return Err(TreeError::Empty);
        };
        let Some(root) = first.nodes().first() else {
            return Err(TreeError::Empty);
        };
        let mut tree = Tree::of_root(alloc, *root)?;
        for (index, route) in routes.iter().enumerate() {
            tree = tree.with_route(alloc, index, route)?;
        }
        // the clause of this call gives the proof that the tree is sound
        let _nodes = tree.nodes();
        Ok(tree)
    }

    /// The first node, at an edge of the chip.
    pub fn root(&self) -> Node
        ensures { result ≡ self.now.root }
    {
        self.root
    }

    /// The nodes, 1 to 144 of them, in the order in which the routes first name them.
    pub fn nodes(&self) -> &[Node]
        ensures value { result.now ≡ self.now.nodes }
        ensures sound { IsSound self.now }
        ensures most { length result.now ≤ 144 }
    {
        &self.nodes
    }

    /// The subtrees of the root.
    pub(crate) fn branches(&self) -> &Branches
        ensures value { subtrees_of result.now ≡ self.now.subtrees }
        ensures near { AreNear self.now.root self.now.subtrees }
        ensures few { count_in self.now.subtrees < 144 }
    {
        &self.branches
    }

    /// The tree of one node.
    fn of_root(alloc: Global, root: Node) -> Result<Self, TreeError>
        requires edge { is_edge root ≡ true }
        ensures tree { IfOk result (λ tree. tree ≡ lone_tree root) }
        ensures memory { IfErr result (λ error. error ≡ Memory) }
    {
        let mut nodes = Vec::new(alloc);
        nodes.push(root)?;
        Ok(Tree {
            root,
            branches: Branches::End,
            nodes,
        })
    }

    /// The tree with one more route, or the fault of that one, by its index.
    fn with_route(self, alloc: Global, index: usize, route: &Route) -> Result<Self, TreeError>
        ensures tree { IfOk result (λ tree. with_route index self route.now ≡ Ok tree) }
        ensures fault { IfErr result (λ error. (error ≡ Memory)
            ⊎ (with_route index self route.now ≡ Err error)) }
    {
        let Tree {
            root,
            mut branches,
            mut nodes,
        } = self;
        // Its name is in the grid. From this the proof gets that a tree has at most 144 nodes.
        let _name = root.name();
        let Some((first, names)) = route.nodes().split_first() else {
            return Err(TreeError::OtherRoot(index));
        };
        if *first != root {
            return Err(TreeError::OtherRoot(index));
        }
        let new = branches.new_nodes(names);
        if are_some_among(new, &nodes) {
            return Err(TreeError::Repeated(index));
        }
        nodes.extend_from_slice(new)?;
        branches.add(alloc, names)?;
        Ok(Tree {
            root,
            branches,
            nodes,
        })
    }
}

/// Some of these nodes are among others.
fn are_some_among(some: &[Node], others: &[Node]) -> bool
    ensures { result ≡ list_any (λ name. is_among name others.now) some.now }
{
    some.iter().any(|node| others.contains(node))
}
