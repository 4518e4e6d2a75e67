use crate::name::{Chosen, Named};
use crate::seat::Nodes;
use atomic_table::{Join, Play, Split, TableRule};
use ga_chip::Chip;
use std::marker::PhantomData;

/// The rule of the cells: their words, and what all seats have, are those of one run of the chip.
pub(crate) struct InOneRun;

impl TableRule<u64, Nodes, Chip> for InOneRun {
    ghost use Rattle.ga_port.specs.Seat.{untried};
    ghost use Rattle.ga_port.specs.Rule.{Holds};

    ghost holds = { λ opening s. Holds opening s };

    ghost first = { λ opening. untried opening.parts };
}

/// A step that enters a try which looks at no cell, or posts.
pub(crate) struct Acts<T> {
    named: PhantomData<T>,
}

impl<T: Named> Play<u64, Nodes> for Acts<T> {
    ghost use Rattle.ga_port.specs.inner.Entering.{Enters};

    ghost then = { λ step old held new. Enters T.what old new };
}

/// A step that enters a try which looks at a cell.
pub(crate) struct Finds<T> {
    named: PhantomData<T>,
}

impl<T: Named> Play<u64, Nodes> for Finds<T> {
    ghost use Rattle.ga_port.specs.inner.Entering.{EntersFound};

    ghost then = { λ step old held new. EntersFound T.what held old new };
}

/// A step that enters a waiting try if it finds the cell empty.
pub(crate) struct Polls<T> {
    named: PhantomData<T>,
}

impl<T: Named> Play<u64, Nodes> for Polls<T> {
    ghost use Rattle.ga_port.specs.inner.Entering.{EntersEmpty};

    ghost then = { λ step old held new. EntersEmpty T.what held old new };
}

/// Nodes that go from a seat to a new one.
pub(crate) struct Shares<T> {
    chosen: PhantomData<T>,
}

impl<T: Chosen> Split<Nodes> for Shares<T> {
    ghost use Rattle.ga_port.specs.Seat.{only, without};

    ghost left = { λ nodes. without T.names nodes };

    ghost right = { λ nodes. only T.names nodes };
}

/// The nodes of two seats, of which the second is consumed.
pub(crate) struct Gathers;

impl Join<Nodes> for Gathers {
    ghost use Rattle.std.specs.Prelude.{[]};
    ghost use Rattle.ga_port.specs.Seat.{merged};

    ghost both = { λ nodes others. merged nodes others };

    ghost spent = { [] };
}
