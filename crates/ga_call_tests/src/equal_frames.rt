//! A node takes equal frames of a stream, again and again, beside two nodes that go round.
use crate::values::{WRITE_12_RIGHT, node, word, words};
use ga_asm::assemble_text;
use ga_chip::Chip;
use ga_debug::placed_chip;
use ga_frame::write_frame;
use ga_race::{Verdict, race};
use ga_word::Word18;
use std::alloc::Global;
use std::test::Fail;

/// 710 sends word after word, and 709 reads them at two sides, of which the other one is 708's.
const SOURCE: &str = "node 709 $1F5 a! go: @ drop jump go node 710 left b! go: 2 !b jump go";

/// Frames that each store 0 at 020.
fn frames(alloc: Global, count: u32) -> Result<Vec<Word18>, Fail> {
    let same = write_frame(alloc, word(0x0AE)?, word(0x020)?, &[word(0)?])?;
    let mut frames = Vec::new(alloc);
    for _ in 0..count {
        frames.extend_from_slice(&same)?;
    }
    Ok(frames)
}

/// Frames that each store 0 at 020, and one with a program that sends a word to 709.
fn stream(alloc: Global, count: u32) -> Result<Vec<Word18>, Fail> {
    let mut stream = frames(alloc, count)?;
    let program = words(alloc, &WRITE_12_RIGHT)?;
    stream.extend_from_slice(&write_frame(alloc, word(0)?, word(0)?, &program)?)?;
    Ok(stream)
}

/// The chip, with this stream for 708.
fn chip_with(alloc: Global, count: u32) -> Result<Chip, Fail> {
    let mut chip = placed_chip(alloc, &assemble_text(alloc, SOURCE)?)?;
    match chip.give_stream(node(708)?, stream(alloc, count)?) {
        Ok(()) => Ok(chip),
        Err(_) => Err("no stream")?,
    }
}

/// The chip, whose stream is open, and has these words as its first piece.
fn chip_fed(alloc: Global, words: &[Word18]) -> Result<Chip, Fail> {
    let mut chip = placed_chip(alloc, &assemble_text(alloc, SOURCE)?)?;
    if chip.open_stream(node(708)?).is_err() {
        return Err("no stream")?;
    }
    feed(alloc, &mut chip, words)?;
    Ok(chip)
}

fn feed(alloc: Global, chip: &mut Chip, words: &[Word18]) -> Result<(), Fail> {
    match chip.feed(node(708)?, Vec::from_slice(alloc, words)?) {
        Ok(()) => Ok(()),
        Err(_) => Err("no piece")?,
    }
}

/// While frames are left, the chip isn't where it was, though all its nodes are.
#[test]
fn a_race_behind_equal_frames_is_found(rt: HostRuntime) -> Result<(), Fail> {
    for count in [0, 1, 9, 40] {
        let mut chip = chip_with(rt.alloc(), count)?;
        let report = race(rt.alloc(), &mut chip, 100_000)?;
        assert!(rt;
            matches!(report.verdict, Verdict::Race(_)),
            "{count} frames"
        );
    }
    Ok(())
}

/// It is found as soon when the words come as a piece of a stream that stays open.
#[test]
fn a_race_behind_fed_frames_is_found(rt: HostRuntime) -> Result<(), Fail> {
    for count in [0, 1, 9] {
        let whole = race(rt.alloc(), &mut chip_with(rt.alloc(), count)?, 100_000)?;
        let words = stream(rt.alloc(), count)?;
        let mut chip = chip_fed(rt.alloc(), words.as_slice())?;
        let report = race(rt.alloc(), &mut chip, 100_000)?;
        assert!(rt;
            matches!(report.verdict, Verdict::Race(_)),
            "{count} frames"
        );
        assert!(rt; report.turns == whole.turns && report.steps == whole.steps);
    }
    Ok(())
}

/// A verdict is one on the words that were fed: the frames alone make no race, and the program that
/// comes in a later piece does.
#[test]
fn a_later_piece_makes_a_race(rt: HostRuntime) -> Result<(), Fail> {
    let front = frames(rt.alloc(), 9)?;
    let mut chip = chip_fed(rt.alloc(), front.as_slice())?;
    let before = race(rt.alloc(), &mut chip, 1_000)?;
    assert!(rt; !matches!(before.verdict, Verdict::Race(_)));
    let rest = stream(rt.alloc(), 0)?;
    feed(rt.alloc(), &mut chip, rest.as_slice())?;
    let behind = race(rt.alloc(), &mut chip, 100_000)?;
    assert!(rt; matches!(behind.verdict, Verdict::Race(_)));
    Ok(())
}
