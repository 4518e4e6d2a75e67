//! Laws of the definitions. They do nothing when run.
ghost use Rattle.ga_boot.specs.Laws.{RoutesAreTree, TreeBoots, TreeBootsAgree};
ghost use Rattle.std.specs.Prelude.{◌++◌, List};
ghost use Rattle.ga_place.specs.Node.{IsNodeName};
ghost use Rattle.ga_path.specs.Stream.{Images, tree_load, tree_start};
ghost use Rattle.ga_path.specs.Tree.{IsSound, TreeView};
ghost use Rattle.ga_chip.specs.Run.{Event};
ghost use Rattle.ga_boot.specs.Boot.{IsSupplied};
ghost use Rattle.ga_debug.specs.Beginning.{booted_tree};

/// Boot in every schedule. The first node of a tree, its root, is given the words that boot the
/// tree as a stream of a chip after reset, or its stream is opened and it is fed pieces that are
/// together a prefix of them. Then nodes are tried in any order, whatever else happens on the chip.
/// At each moment: once the load part was taken whole, a node with an image holds the image, and
/// zeros behind it, until it starts. When the root starts, its P is its entry, or without an image
/// its idle address; another node's P is that one step after it took its start word. Until a node
/// starts it takes words only from its parent, and its multiport reads that are `Moved` name its
/// parent's side.
///
/// Two such runs agree on their common steps if, once started, each node's multiport reads take
/// from one side only, the same in both. A tree of routes is such a tree, and `booted_tree` answers
/// such a chip.
pub fn boot_any_schedule()
    ensures trees { TreeBoots }
    ensures agree { TreeBootsAgree }
    ensures routes { RoutesAreTree }
    ensures supplied { (images : Images) (tree : TreeView) (events : List Event)
        → IsNodeName tree.root → IsSound tree → IsSupplied (booted_tree images tree) tree.root
        (tree_load images tree ++ tree_start images tree) events }
{}
