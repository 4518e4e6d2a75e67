//! Values that the tests use.

use ga_chip::Chip;
use ga_place::Node;
use ga_word::Word18;
use std::alloc::Global;
use std::test::Fail;

/// The load of 709, one hop from 708, with the one word `. . . .`, 14 words; and its start.
pub const ONE_HOP: [u32; 21] = [
    0x000AE, 0x001D5, 0x00008, 0x101D5, 0x04A12, 0x00000, 0x00000, 0x2E9B2, 0x05872, 0x2C9B2,
    0x2C9B2, 0x000AE, 0x00000, 0x00000, 0x000AE, 0x001D5, 0x00001, 0x10000, 0x001B5, 0x00000,
    0x00000,
];

/// The load and the start of 710 over two hops from 708, with the one word `. . . .`.
pub const TWO_HOPS: [u32; 34] = [
    0x000AE, 0x001D5, 0x0000F, 0x101D5, 0x04A12, 0x00175, 0x00007, 0x2E9B2, 0x05A72, 0x10175,
    0x04A12, 0x00000, 0x00000, 0x2E9B2, 0x05872, 0x2C9B2, 0x2C9B2, 0x2C9B2, 0x000AE, 0x00000,
    0x00000, 0x000AE, 0x001D5, 0x00007, 0x04A12, 0x00175, 0x00000, 0x2E9B2, 0x05A72, 0x10000,
    0x101B5, 0x001B5, 0x00000, 0x00000,
];

/// A program that writes 12 to the port on the right.
pub const WRITE_12_RIGHT: [u32; 4] = [0x05DA2, 0x00012, 0x001D5, 0x089B2];

/// The word with this number; a test fails if it has more than 18 bits.
pub fn word(number: u32) -> Result<Word18, Fail> {
    Ok(Word18::new(number).ok_or("more than 18 bits")?)
}

/// The words with these numbers.
pub fn words(alloc: Global, numbers: &[u32]) -> Result<Vec<Word18>, Fail> {
    let mut words = Vec::new(alloc);
    for number in numbers {
        words.push(word(*number)?)?;
    }
    Ok(words)
}

/// An array of words, such as a node's memory, that begins with these numbers and is 0 behind them.
pub fn array<const N: usize>(numbers: &[u32]) -> Result<[Word18; N], Fail> {
    let mut words = [Word18::default(); N];
    for (word, number) in words.iter_mut().zip(numbers) {
        *word = self::word(*number)?;
    }
    Ok(words)
}

/// The node with this name; a test fails if there is none.
pub fn node(name: u16) -> Result<Node, Fail> {
    Ok(Node::new(name).ok_or("no such node")?)
}

/// The nodes with these names.
pub fn nodes<const N: usize>(names: &[u16; N]) -> Result<[Node; N], Fail> {
    let mut nodes = [node(0)?; N];
    for (node, name) in nodes.iter_mut().zip(names.iter()) {
        *node = self::node(*name)?;
    }
    Ok(nodes)
}

/// A chip after reset with words in a node, whose entry is 0.
pub fn chip_with(alloc: Global, node: Node, numbers: &[u32]) -> Result<Chip, Fail> {
    let mut chip = Chip::reset(alloc)?;
    chip.place(node, &array::<64>(numbers)?, 0)?;
    Ok(chip)
}
