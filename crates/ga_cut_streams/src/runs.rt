use crate::cut::Cut;
use crate::fault::Fault;
use ga_chip::{Chip, side_of_turn};
use ga_dump::chip_text;
use ga_place::Node;
use ga_word::Word18;
use std::alloc::{AllocError, Global};

/// How many turns a stream may take, and how many a run goes on behind it.
const MOST: u64 = 1_000_000;

const BEHIND: u64 = 64;

/// How many turns a piece comes late.
const IDLE: u32 = 7;

/// How many times four turns may bring a chip to rest.
const TO_REST: u32 = 10_000;

/// A run of a chip to which a boot stream was given as a whole.
#[derive(Drop)]
pub struct WholeRun {
    turns: u64,
    dump: String,
    // The dump of the chip at rest.
    rest: Option<String>,
}

impl WholeRun {
    /// The run from a reset chip until the stream is taken, some turns more, and as many as bring
    /// it to rest.
    pub fn new(alloc: Global, node: Node, words: &[Word18]) -> Result<Self, Fault> {
        let mut chip = Chip::reset(alloc)?;
        let stream = Vec::from_slice(alloc, words)?;
        if chip.give_stream(node, stream).is_err() {
            return Err(Fault::Refused);
        }
        let taken = take_stream(&mut chip, node)?;
        let turns = taken.saturating_add(BEHIND);
        for turn in taken..turns {
            chip.turn(side_of_turn(turn));
        }
        Ok(WholeRun {
            turns,
            dump: chip_text(alloc, &chip)?,
            rest: dump_at_rest(alloc, &mut chip)?,
        })
    }

    /// Whether a run ends otherwise in which the stream is cut so, and each piece is fed as soon as
    /// the one before it is taken.
    pub fn differs(
        &self,
        alloc: Global,
        node: Node,
        words: &[Word18],
        cut: Cut,
    ) -> Result<bool, Fault> {
        let mut chip = opened(alloc, node)?;
        let pieces = cut.pieces(alloc, words)?;
        let mut next = pieces.iter();
        for turn in 0..self.turns {
            if chip.stream_left(node) == 0 {
                if let Some(piece) = next.next() {
                    feed(alloc, &mut chip, node, piece)?;
                }
            }
            chip.turn(side_of_turn(turn));
        }
        Ok(chip_text(alloc, &chip)? != self.dump)
    }

    /// Whether the chip comes to rest otherwise if the stream is cut so and each piece comes late,
    /// so that the node waits for it. `None` if it comes to no rest.
    pub fn differs_late(
        &self,
        alloc: Global,
        node: Node,
        words: &[Word18],
        cut: Cut,
    ) -> Result<Option<bool>, Fault> {
        let Some(rest) = &self.rest else {
            return Ok(None);
        };
        let mut chip = opened(alloc, node)?;
        for piece in cut.pieces(alloc, words)? {
            let _moved = chip.turns(IDLE);
            feed(alloc, &mut chip, node, piece)?;
            let _taken = take_stream(&mut chip, node)?;
        }
        Ok(dump_at_rest(alloc, &mut chip)?.map(|other| other != *rest))
    }
}

/// A chip after reset on which the stream of a node is open.
fn opened(alloc: Global, node: Node) -> Result<Chip, Fault> {
    let mut chip = Chip::reset(alloc)?;
    if chip.open_stream(node).is_err() {
        return Err(Fault::Refused);
    }
    Ok(chip)
}

/// Feeds a piece to a node.
fn feed(alloc: Global, chip: &mut Chip, node: Node, piece: &[Word18]) -> Result<(), Fault> {
    let words = Vec::from_slice(alloc, piece)?;
    if chip.feed(node, words).is_err() {
        return Err(Fault::Refused);
    }
    Ok(())
}

/// Runs a chip until the stream of a node is taken. Answers how many turns that took.
fn take_stream(chip: &mut Chip, node: Node) -> Result<u64, Fault> {
    for turn in 0..MOST {
        if chip.stream_left(node) == 0 {
            return Ok(turn);
        }
        chip.turn(side_of_turn(turn));
    }
    Err(Fault::NotTaken)
}

/// Runs a chip until no node moves. Answers its dump then, or `None` if it comes to no rest.
fn dump_at_rest(alloc: Global, chip: &mut Chip) -> Result<Option<String>, AllocError> {
    for _ in 0..TO_REST {
        if chip.turns(4) == 0 {
            return Ok(Some(chip_text(alloc, chip)?));
        }
    }
    Ok(None)
}
