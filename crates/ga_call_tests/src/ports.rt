ghost use Rattle.std.specs.Prelude.{◌≡◌, IfOk};
ghost use Rattle.ga_call_tests.specs.inner.Hands.{AreInHand};

use crate::values::{WRITE_12_RIGHT, chip_with, nodes, word};
use ga_chip::{Asks, CellRow, NodePart, Try};
use ga_place::{Node, Side};
use ga_port::{Cells, PortSeat};
use ga_word::Word18;
use std::alloc::Global;
use std::test::Fail;

/// The cells of a chip, a seat with all nodes, and their parts.
struct Hand {
    cells: Cells,
    seat: PortSeat,
    parts: Vec<NodePart>,
}

/// A try of a node that asks to take a word: the word, if one is pending.
fn take(hand: &mut Hand, node: Node, side: Side) -> Option<Word18>
    requires { AreInHand hand.old.cells hand.old.seat hand.old.parts.items }
    ensures { AreInHand hand.new.cells hand.new.seat hand.new.parts.items }
{
    let part = &mut hand.parts[node.index()];
    let Asks::Take(from, cell) = part.asks(side) else {
        return None;
    };
    let Some(word) = hand.cells.take(&mut hand.seat, Try { node, side }, cell) else {
        let _outcome = part.done_take(from, None);
        return None;
    };
    let _outcome = part.done_take(from, Some(word));
    Some(word)
}

/// A try of a node that asks whether its word was read.
fn check(hand: &mut Hand, node: Node, side: Side) -> Option<bool>
    requires { AreInHand hand.old.cells hand.old.seat hand.old.parts.items }
    ensures { AreInHand hand.new.cells hand.new.seat hand.new.parts.items }
{
    let part = &mut hand.parts[node.index()];
    let Asks::Check(to, cell) = part.asks(side) else {
        return None;
    };
    let empty = hand.cells.check(&mut hand.seat, Try { node, side }, cell);
    let _outcome = part.done_check(to, empty);
    Some(empty)
}

/// The cells of a chip on which this node has posted 12 to its right.
fn opened(alloc: Global, node: Node) -> Result<Hand, Fail>
    ensures { IfOk result (λ hand. AreInHand hand.cells hand.seat hand.parts.items) }
{
    let mut chip = chip_with(alloc, node, &WRITE_12_RIGHT)?;
    let side = Side::Right;
    chip.run(&[Try { node, side }; 7]);
    let (cells, seat) = Cells::open(alloc, &chip)?;
    let (parts, _row) = chip.into_parts();
    Ok(Hand { cells, seat, parts })
}

/// The cells at the end.
fn closed(hand: Hand) -> CellRow
    requires { hand.seat.table ≡ hand.cells.table }
{
    let Hand {
        cells,
        seat,
        parts: _parts,
    } = hand;
    cells.close(seat)
}

#[test]
fn cells_by_hand(rt: HostRuntime) -> Result<(), Fail> {
    let [node_708, node_709] = nodes(&[708, 709])?;
    let expected = word(0x00012)?;
    let mut hand = opened(rt.alloc(), node_708)?;
    let found = take(&mut hand, node_709, Side::Right);
    let read = check(&mut hand, node_708, Side::Right);
    let row = closed(hand);
    assert!(rt; found == Some(expected) && read == Some(true));
    assert!(rt; row.into_words().iter().all(|pending| pending.is_none()));
    Ok(())
}
