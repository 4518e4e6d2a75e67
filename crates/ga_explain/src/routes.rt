ghost use Rattle.std.specs.Prelude.{◌≡◌, map};
ghost use Rattle.ga_explain.specs.Table.{routes_entries};
ghost use Rattle.ga_explain.specs.Topic.{entry_of};

use crate::topic::{Topic, topic};

/// The faults of routes, of trees and of boots, in the order of the pages.
#[tactic(auto, unfolding(crate::specs::Table::routes_entries))]
pub fn topics() -> [Topic; 6]
    ensures { map entry_of result ≡ routes_entries }
{
    [
        topic!(
            "BadRoute",
            "the second line is neither 'place' nor 'route' and names of nodes",
            BAD_ROUTE,
        ),
        topic!("NotEdge", "", NOT_EDGE),
        topic!("NotNeighbour", "", NOT_NEIGHBOUR),
        topic!("Repeated", "", REPEATED),
        topic!("OtherRoot", "", OTHER_ROOT),
        topic!("Unreached", "", UNREACHED),
    ]
}

const BAD_ROUTE: &str = "\
BadRoute: ROUTE isn't a list of node names, three digits each, with commas and
no blanks between them, nor several such lists with a / between them. Or LIST of
'trace' isn't such a list. Or the second line of a session or of a replay text
is missing, or is neither 'place' nor 'route' and a ROUTE.

  $ echo 'node 709 .' | ga-bench boot '708, 709'
  ga-bench: route BadRoute
  $ echo 'node 709 .' | ga-bench boot 708//709
  ga-bench: route BadRoute
  $ printf 'profile 2\\nroute 708-709\\nnode 709 .\\ngo\\n' | ga-bench replay
  ga-bench: replay BadRoute

Fixed:

  $ printf 'profile 2\\nroute 708,709\\nnode 709 .\\ngo\\n' | ga-bench replay
  same 0
";

const NOT_EDGE: &str = "\
NotEdge: the first node of the route isn't at the edge of the chip, so it has no
boot stream. Rows 0 and 7 and columns 00 and 17 are at the edge.

  $ echo 'node 408 .' | ga-bench boot 408
  ga-bench: route NotEdge

Fixed:

  $ echo 'node 708 .' | ga-bench boot 708
  load 4
  000AE 00000 00001 2C9B2
  start 3
  00000 00000 00000
";

const NOT_NEIGHBOUR: &str = "\
NotNeighbour: a node of the route, counted from 0, is no neighbour of the node
before it. Neighbours are side by side in one row, as 708 and 709, or in one
column, as 708 and 608. A node twice in a row, as 708,708, is this fault too.

  $ echo 'node 710 .' | ga-bench boot 708,710
  ga-bench: route NotNeighbour 1

Fixed, as a replay text with that route and no commands:

  $ printf 'profile 2\\nroute 708,709,710\\nnode 710 .\\ngo\\n' | ga-bench replay
  same 0
";

const REPEATED: &str = "\
Repeated: a node of the route, counted from 0, is on the route already. A route
passes each node once. For several routes (tree Repeated): this route, counted
from 0, reaches a node of the tree by another way than the routes before it. A
tree has one way to each node.

  $ echo 'node 709 .' | ga-bench boot 708,709,708
  ga-bench: route Repeated 2
  $ echo 'node 609 .' | ga-bench boot 708,709,609/708,608,609
  ga-bench: tree Repeated 1

Fixed:

  $ echo 'node 709 .' | ga-bench boot 708,709
  load 14
  000AE 001D5 00008 101D5 04A12 00000 00000 2E9B2
  05872 2C9B2 2C9B2 000AE 00000 00000
  start 7
  000AE 001D5 00001 10000 001B5 00000 00000
  $ printf 'profile 2\\nroute 708,709,609/708,608\\nnode 609 .\\ngo\\n' |
    ga-bench replay
  same 0
";

const OTHER_ROOT: &str = "\
OtherRoot: this route of several, counted from 0, doesn't begin at the first
node of the first route. One stream boots a tree, through one node.

  $ echo 'node 709 .' | ga-bench boot 708,709/000,001
  ga-bench: tree OtherRoot 1

Fixed: routes from one node, or a session of its own for the other.

  $ printf 'profile 2\\nroute 708,709/708,608\\nnode 709 .\\ngo\\n' |
    ga-bench replay
  same 0
";

const UNREACHED: &str = "\
Unreached: this node of the text, the first such, isn't on a route, so the boot
can't load it. Nodes of the route without a section are fine: they pass words
on.

  $ echo 'node 709 .' | ga-bench boot 708,707
  ga-bench: boot Unreached 709

Fixed:

  $ echo 'node 709 .' | ga-bench boot 708,709
  load 14
  000AE 001D5 00008 101D5 04A12 00000 00000 2E9B2
  05872 2C9B2 2C9B2 000AE 00000 00000
  start 7
  000AE 001D5 00001 10000 001B5 00000 00000
";
