//! Chips on which a ring of four nodes has started.
use ga_chip::Chip;
use ga_place::Node;
use ga_word::Word18;
use std::alloc::{AllocError, Global};

/// What 708 runs: `right a! down b! $1 ! @b jump warm`.
const SENDER: [u32; 6] = [0x04A12, 0x001D5, 0x00115, 0x29D2A, 0x00001, 0x017A9];

/// What 709 and 608 run: `right a! down b! @ $1 + !b jump warm`; 609 has its ports the other way
/// round.
const ADDER: [u32; 6] = [0x04A12, 0x001D5, 0x00115, 0x29E10, 0x00001, 0x097A9];

const ADDER_BACK: [u32; 6] = [0x04A12, 0x00115, 0x001D5, 0x29E10, 0x00001, 0x097A9];

/// How many turns the ring has made.
const TURNS: u32 = 8;

/// The nodes of the ring.
pub fn ring_nodes() -> [Node; 4] {
    [
        Node::new(708).unwrap(),
        Node::new(709).unwrap(),
        Node::new(609).unwrap(),
        Node::new(608).unwrap(),
    ]
}

/// A chip on which the ring has made some turns.
pub fn ring(alloc: Global) -> Result<Chip, AllocError> {
    let mut chip = Chip::reset(alloc)?;
    for (node, numbers) in ring_nodes()
        .iter()
        .zip([&SENDER, &ADDER, &ADDER_BACK, &ADDER])
    {
        let _ = chip.place(*node, &words_of(numbers), 0);
    }
    let _moved = chip.turns(TURNS);
    Ok(chip)
}

/// The words with these numbers.
fn words_of(numbers: &[u32; 6]) -> [Word18; 6] {
    let mut words = [Word18::default(); 6];
    for (word, number) in words.iter_mut().zip(numbers.iter()) {
        *word = Word18::new(*number).unwrap_or_default();
    }
    words
}
