ghost use Rattle.std.specs.Prelude.{◌≡◌, ◌==◌, ℕ, ◌<◌, ◌↔◌, false, IsTrue, Some};
ghost use Rattle.std.specs.Cmp.{partial_order_from_own_ties};
ghost use Rattle.std.specs.Cmp.Rules.{comparing, hashing};
ghost use Rattle.std.specs.Hash as fed;
ghost use Rattle.std.specs.Option.{SomeIff};
ghost use Rattle.std.specs.Ordering.{as_partial_cmp, nat_cmp};
ghost use Rattle.std.proofs.Common.{rules};
ghost use Rattle.ga_place.specs.Cell.{index_of, name_at};
ghost use Rattle.ga_place.specs.inner.Index.{index_back};
ghost use Rattle.ga_place.specs.Node.{IsNodeName, column_of, is_edge, node_named, node_text, row_of};
ghost use Rattle.ga_place.specs.Side.{has_side};
ghost use Rattle.ga_place.specs.declared.side.Side.{Side};

use std::cmp::Ordering;
use std::fmt;
use std::hash::{Hash, Hasher};
use std::marker::Model;

/// One of the 144 computers of the GA144, in 8 rows by 18 columns (chip reference DB002).
///
/// Its name is the number `row * 100 + column`: 708 is row 7, column 8. A contract sees a node as
/// its name, and nodes compare and hash as their names. What is kept is the node's index in order
/// of name.
#[derive(Clone, Copy, Debug)]
pub struct Node {
    index: u8,
}

impl Model for Node {
    ghost Value = { ℕ };

    ghost view = { λ node. name_at node.index };

    ghost invariant = { λ node. node.index < 144 };

    ghost inverse = { λ n. record { index = index_of n } };

    ghost inverse_ok = { λ node below i. record { index = index_back node.index below i } };
}

impl Node {
    /// The node with this name, or `None` if no node has it, as at 718, 800 or 820.
    #[inline]
    pub fn new(name: u16) -> Option<Self>
        ensures { SomeIff result (IsNodeName name) name }
    {
        let row = name / 100;
        let column = name % 100;
        if row < 8 && column < 18 {
            let index = (row * 18 + column) as u8;
            Some(Node { index })
        } else {
            None
        }
    }

    /// The node that a text names: three decimal digits, as 008, which are its name. `None` for
    /// every other text, and if no node has the name.
    pub fn from_digits(text: &[u8]) -> Option<Self>
        ensures { result ≡ node_named text.now }
    {
        let [a, b, c] = text else {
            return None;
        };
        let a = char::from(*a).to_digit(10)?;
        let b = char::from(*b).to_digit(10)?;
        let c = char::from(*c).to_digit(10)?;
        Node::new((a * 100 + b * 10 + c) as u16)
    }

    /// The name of the node, `row * 100 + column`.
    #[inline]
    pub fn name(self) -> u16
        ensures value { result ≡ self }
        ensures bound { IsNodeName result }
    {
        u16::from(self.row()) * 100 + u16::from(self.column())
    }

    /// The index of the node in order of name, from 0 to 143.
    #[inline(always)]
    pub fn index(self) -> usize
        ensures value { result ≡ index_of self }
        ensures bound { result < 144 }
        ensures back { name_at result ≡ self }
    {
        usize::from(self.index)
    }

    /// The node at an index in order of name.
    #[inline(always)]
    pub fn at(index: usize) -> Self
        requires { index < 144 }
        ensures { result ≡ name_at index }
    {
        Node { index: index as u8 }
    }

    /// The row of the node, from 0 in the south to 7.
    #[inline(always)]
    pub fn row(self) -> u8
        ensures value { result ≡ row_of self }
        ensures bound { result < 8 }
    {
        self.index / 18
    }

    /// The column of the node, from 0 in the west to 17.
    #[inline(always)]
    pub fn column(self) -> u8
        ensures value { result ≡ column_of self }
        ensures bound { result < 18 }
    {
        self.index % 18
    }

    /// Whether the node is in row 0 or 7, or in column 0 or 17, and so lacks a side.
    pub fn is_edge(self) -> bool
        ensures value { result ≡ is_edge self }
        ensures sides { IsTrue result ↔ ((side : Side) × (has_side self side ≡ false)) }
    {
        let row = self.row();
        let column = self.column();
        row == 0 || row == 7 || column == 0 || column == 17
    }
}

impl PartialEq for Node {
    ghost eq = { ◌==◌ };

    ghost laws = { Prim.search (comparing, rules) };

    #[inline(always)]
    fn eq(&self, other: &Node) -> bool {
        self.index == other.index
    }
}

impl Eq for Node {
    ghost laws = { Prim.search (comparing, rules) };
}

impl PartialOrd for Node {
    ghost partial_cmp = { as_partial_cmp nat_cmp };

    ghost laws = { partial_order_from_own_ties (Prim.search (comparing, rules))
        (Prim.search (comparing, rules)) };

    #[inline]
    fn partial_cmp(&self, other: &Node) -> Option<Ordering> {
        Some(self.cmp(other))
    }
}

impl Ord for Node {
    ghost cmp = { nat_cmp };

    ghost total = { Prim.search (comparing, rules) };

    ghost matches_partial_cmp = { Prim.search (comparing, rules) };

    ghost matches_eq = { Prim.search (comparing, rules) };

    // Indices are ordered as their names are.
    #[inline]
    fn cmp(&self, other: &Node) -> Ordering {
        self.index.cmp(&other.index)
    }
}

impl Hash for Node {
    ghost hash_input = { fed.u16 };

    ghost respects_eq = { Prim.search (hashing, rules) };

    fn hash<H: Hasher>(&self, state: &mut H) {
        self.name().hash(state);
    }
}

/// Writes the name as three decimal digits, as 008.
impl fmt::Display for Node {
    ghost output = { λ node. Some (node_text node) };

    fn fmt<W: fmt::Write>(&self, f: &mut fmt::Formatter<W>) -> fmt::Result {
        let name = self.name();
        write!(f, "{name:03}")
    }
}
