//! Random programs with streams, which come whole and in pieces, beside verdicts by all schedules.
use crate::values::{node, word};
use ga_asm::assemble_text;
use ga_chip::Chip;
use ga_debug::placed_chip;
use ga_frame::write_frame;
use ga_race::{Verdict, race};
use ga_word::Word18;
use std::alloc::Global;
use std::test::Fail;

/// What a node may do: read at one side or at two, post a word at one, or go on.
const DEEDS: [&str; 10] = [
    "$1F5 a! @ drop ",
    "$1F5 a! @ drop ",
    "right a! @ drop ",
    "left a! @ drop ",
    "right b! 5 !b ",
    "right b! 15 !b ",
    "left b! 6 !b ",
    "left b! 16 !b ",
    ". . . . ",
    "dup drop ",
];

/// What a model of the chip decides by all schedules of each program, a letter for each: `n`, no
/// race if the stream comes whole, and so none in pieces; `f`, a race already in the first piece;
/// `l`, one in a later piece; `w`, only if the stream comes whole; `u`, a race then, and undecided
/// in pieces. `tests/race_pieces.py --write` makes it.
const VERDICTS: [&str; 12] = [
    "wwnfflfwlwnfnfnnlwnwfnffnfwnnfunflwfwfwnwfwullfnwfwwwlwnfwlwwnlwnnnnlflnfflfffll",
    "wnnnwwnnflwfnnnffnfnfnfwllwfnnnnnffnfwlfnflnwlnnnwwlfffflnlwwnwwlwnnlwfwfflwnllw",
    "nnlnlflnwwnnnwnlwfwnnnnnnfnfwnnnnlffwwnllnnwnfnnlnwnwlnnlwfnnwwfnwfnwwwwfwnlflnl",
    "nwflnwnnwlnlnlfwwllflwnlnnfwffnlnwwlnfnwnnlnnfflnfnfnnnflfwffnwnwfnffwnllnffwnff",
    "lwnnfwwfwfwnflnfnlwwlwfnwflnwwffwllfwnlnnlnfnwwnwlnfllwfwlfwwfwlwfwlnfnwlfwlnwwn",
    "wnwlfnnfwwflflnllnnflnnwwlwfwfnflffnfllnwnlfnffnwffwfffllwfwwfnfwflnfwlnfnffwnwl",
    "wlnlnfwfnnfnwlfwfffnfnwnwfffwfnwwfnflnwllfnwfuwnfnnnfnnlfnwnlwllwwnwwnllwwnfnlfn",
    "nffnwfnfuflfnfwlnflllfwwnnlnwnfffwlnfnlffwlfwflfnffnfwfwfnlffwwwnwlwfwnnwfffnfnf",
    "ffflnwwnlnllfwflnwffflllwwwfwlffnwwlfwfllfnwnllnnfnlwnnwwwuwffnffwnfffnfwllfnnlw",
    "nnfwnfnwfflfnfnwnfnnlnfnuwlnfufwwwnnnnlwflfwwnfnwlflwnnflfllnnffnfllfnflwlwflwnw",
    "wlnfflfwwfnwfnnnnlnwwflffflnffnfwwnfnllnlnwnlwlwwffwnnnnlwnlnlnwnflwnwllllwnnwff",
    "wfnfwlnffnnwflfffllfwwfwnwfnlnnffwwfwfnlwwwnnffnlllfffnnlfllnfwnnwwfnfwnlnwlnfwn",
];

/// The turns of a run: those of such programs end far earlier, if they end.
const TURNS: u32 = 2_000;

/// Numbers that look random.
#[derive(Drop)]
struct Numbers {
    state: u64,
}

impl Numbers {
    /// The next number below a bound, which isn't 0.
    fn below(&mut self, bound: u64) -> u64 {
        let next = self.state.wrapping_mul(6_364_136_223_846_793_005);
        self.state = next.wrapping_add(1_442_695_040_888_963_407);
        (self.state >> 33) % bound.max(1)
    }
}

/// Adds one to four deeds, and behind them an end, or a way back.
fn push_deeds(text: &mut String, numbers: &mut Numbers) -> Result<(), Fail> {
    text.push_str("top: ")?;
    for _ in 0..=numbers.below(4) {
        let index = numbers.below(10) as usize;
        text.push_str(DEEDS.get(index).copied().unwrap_or(""))?;
    }
    let ends = numbers.below(3) > 1;
    text.push_str(if ends {
        "done: jump done "
    } else {
        "jump top "
    })?;
    Ok(())
}

/// The source text of three nodes behind 708. The first one takes some words of 708, and reads at
/// both sides then; the second one has a word for it.
fn neighbours(alloc: Global, numbers: &mut Numbers) -> Result<String, Fail> {
    let mut text = String::from_str(alloc, "node 709 right a! ")?;
    for _ in 0..numbers.below(6) {
        text.push_str("@ drop ")?;
    }
    text.push_str("$1F5 a! @ drop ")?;
    for begin in ["", "node 710 left b! 9 !b ", "node 711 "] {
        text.push_str(begin)?;
        push_deeds(&mut text, numbers)?;
    }
    Ok(text)
}

/// A stream for 708: one to four frames that store 0 at 020, or post up to four words to 709; and
/// one with a program.
fn stream(alloc: Global, numbers: &mut Numbers) -> Result<Vec<Word18>, Fail> {
    let mut words = Vec::new(alloc);
    for _ in 0..=numbers.below(4) {
        words.extend_from_slice(&frame(alloc, numbers)?)?;
    }
    let mut text = String::from_str(alloc, "node 708 ")?;
    push_deeds(&mut text, numbers)?;
    for (_, image) in assemble_text(alloc, text.as_str())?.images() {
        words.extend_from_slice(&write_frame(alloc, word(0)?, word(0)?, image.words())?)?;
    }
    Ok(words)
}

/// A frame behind which another one comes.
fn frame(alloc: Global, numbers: &mut Numbers) -> Result<Vec<Word18>, Fail> {
    let next = word(0x0AE)?;
    if numbers.below(4) == 0 {
        return Ok(write_frame(alloc, next, word(0x020)?, &[word(0)?])?);
    }
    let mut body = Vec::new(alloc);
    for _ in 0..=numbers.below(4) {
        let number = u32::try_from(numbers.below(4)).unwrap_or(0);
        body.push(word(number)?)?;
    }
    Ok(write_frame(alloc, next, word(0x1D5)?, &body)?)
}

/// The verdict on a chip with these programs, and with the whole stream.
fn whole_verdict(alloc: Global, text: &str, words: &[Word18]) -> Result<Verdict, Fail> {
    let mut chip = placed_chip(alloc, &assemble_text(alloc, text)?)?;
    if chip
        .give_stream(node(708)?, Vec::from_slice(alloc, words)?)
        .is_err()
    {
        return Err("no stream")?;
    }
    Ok(race(alloc, &mut chip, TURNS)?.verdict)
}

/// The piece with which a race is found, from 0. A piece is fed when the words before it are taken.
/// If they never are, the rest doesn't come.
fn piece_with_race(
    alloc: Global,
    text: &str,
    words: &[Word18],
    size: usize,
) -> Result<Option<usize>, Fail> {
    let mut chip = placed_chip(alloc, &assemble_text(alloc, text)?)?;
    if chip.open_stream(node(708)?).is_err() {
        return Err("no stream")?;
    }
    for (number, piece) in words.chunks(size.max(1)).enumerate() {
        if chip.stream_left(node(708)?) > 0 {
            return Ok(None);
        }
        if has_race_with(alloc, &mut chip, piece)? {
            return Ok(Some(number));
        }
    }
    Ok(None)
}

/// Whether a race is found when a piece comes.
fn has_race_with(alloc: Global, chip: &mut Chip, piece: &[Word18]) -> Result<bool, Fail> {
    if chip
        .feed(node(708)?, Vec::from_slice(alloc, piece)?)
        .is_err()
    {
        return Err("no piece")?;
    }
    let report = race(alloc, chip, TURNS)?;
    // A verdict may come before the words are taken, and then no race comes any more.
    let _moved = chip.turns(TURNS);
    Ok(is_race(&report.verdict))
}

fn is_race(verdict: &Verdict) -> bool {
    matches!(verdict, Verdict::Race(_))
}

/// The letter of a program in `VERDICTS`.
fn verdict_of(number: usize) -> Option<u8> {
    let row = VERDICTS.get(number / 80)?;
    row.as_bytes().get(number % 80).copied()
}

/// Whether a race with a piece is what this letter of `VERDICTS` says.
fn is_as_decided(letter: u8, found: Option<usize>) -> bool {
    match letter {
        b'f' => found == Some(0),
        b'l' => found.is_some_and(|piece| piece > 0),
        b'u' => true,
        _ => found.is_none(),
    }
}

/// The library finds a race, if the stream comes whole and if it comes in pieces, where the model
/// does, and nowhere else. In one piece a stream has the verdict of the whole one.
#[test]
fn races_are_those_of_all_schedules(rt: HostRuntime) -> Result<(), Fail> {
    let mut numbers = Numbers { state: 708 };
    for number in 0..960 {
        let text = neighbours(rt.alloc(), &mut numbers)?;
        let words = stream(rt.alloc(), &mut numbers)?;
        let most = (words.len() as u64).saturating_sub(1).min(12);
        let size = numbers.below(most).saturating_add(1) as usize;
        let (text, words) = (text.as_str(), words.as_slice());
        let Some(letter) = verdict_of(number) else {
            return Err("no verdict")?;
        };
        let whole = is_race(&whole_verdict(rt.alloc(), text, words)?);
        assert!(rt; whole == (letter != b'n'), "program {number}: {text}");
        let at_once = piece_with_race(rt.alloc(), text, words, words.len())?;
        assert!(rt;
            at_once.is_some() == whole,
            "program {number} in one piece: {text}"
        );
        let later = piece_with_race(rt.alloc(), text, words, size)?;
        assert!(rt;
            is_as_decided(letter, later),
            "program {number} in pieces of {size}: {text}"
        );
    }
    Ok(())
}
