//! Opcodes and sides by their names, and words as text.
use crate::values::words;
use bitflags::Flags;
use ga_place::Sides;
use ga_word::{Op, words_text};
use std::test::Fail;

#[test]
fn names_and_texts(rt: HostRuntime) -> Result<(), Fail> {
    assert!(rt; Op::from_name("a!") == Some(Op::AStore) && Op::from_name("xor").is_none());
    assert!(rt; Sides::from_name("DOWN") == Some(Sides::DOWN) && Sides::DOWN.bits() == 0x40);
    assert!(rt; Sides::from_bits_retain(0x10) == Sides::UP && Sides::flags().len() == 4);
    let words = words(rt.alloc(), &[1; 9])?;
    let nine = "00001 00001 00001 00001 00001 00001 00001 00001\n00001\n";
    assert!(rt; words_text(rt.alloc(), &words)?.as_str() == nine);
    Ok(())
}
