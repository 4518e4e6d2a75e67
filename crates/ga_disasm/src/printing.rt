ghost use Rattle.std.specs.Prelude.{◌≡◌, ℕ, ◌++◌, List, map, IfOk, OnOk, string_bytes};
ghost use Rattle.ga_word.specs.Op.{name_of};
ghost use Rattle.ga_disasm.specs.Disassembling.{items_of, item_view};
ghost use Rattle.ga_disasm.specs.Printing.{behind_spaces, field_texts, item_line, node_line, text_of};
ghost use Rattle.ga_disasm.specs.Source.{FitNode, IsSourceOf};

use crate::item::Item;
use ga_pack::Packed;
use ga_word::Op;
use std::alloc::{AllocError, Global};
use std::fmt::Write;

/// The source text of the items of a node, without the line of the node's name: a line for each
/// item, ended by LF, and the line `data` before the first [`Item::Data`].
///
/// A word of code is `[`, its opcodes, behind one that takes a destination the field as `$` and
/// five hex digits and, if they are not 0, `/` and the spare bits, and `]`, with one space between.
/// Any other word is `,`, a space, `$` and five hex digits. Fails only when out of memory.
///
/// If the items are what [`items`](crate::items) returns for 1 to 64 words, the text is a source
/// text of these words: behind the line `node 000` it is a text without fault, and the assembler's
/// layout allows for it these words and no others, and the same length of code.
pub fn print(alloc: Global, items: &[Item]) -> Result<String, AllocError>
    ensures text { IfOk result (λ text. string_bytes text ≡ text_of (map item_view items.now)) }
    // for the items of any words of a node
    ensures source { IfOk result (λ text. (words : List ℕ) (code_len : ℕ) → FitNode words code_len
        → map item_view items.now ≡ items_of code_len words
        → IsSourceOf (node_line ++ string_bytes text) words code_len) }
{
    let mut text = String::new(alloc);
    let mut in_data = false;
    for item in items {
        if !in_data && matches!(item, Item::Data(_)) {
            text.push_str("data\n")?;
            in_data = true;
        }
        push_line(&mut text, item)?;
    }
    Ok(text)
}

/// The line of an item.
fn push_line(text: &mut String, item: &Item) -> Result<(), AllocError>
    ensures { OnOk result (string_bytes text.new ≡ string_bytes text.old
        ++ item_line (item_view item.now)) }
{
    match item {
        Item::Code(packed) => push_word(text, packed)?,
        Item::Follower(word) | Item::Data(word) => writeln!(text, ", ${word}")?,
    }
    Ok(())
}

/// A word in brackets.
fn push_word(text: &mut String, packed: &Packed) -> Result<(), AllocError>
    ensures { OnOk result (string_bytes text.new ≡ string_bytes text.old
        ++ item_line (item_view (Item.Code packed.now))) }
{
    text.push_str("[")?;
    push_ops(text, packed.ops.as_slice())?;
    if let Some(dest) = packed.dest {
        push_field(text, dest, packed.spare)?;
    }
    text.push_str(" ]\n")?;
    Ok(())
}

/// Adds the names of opcodes, each behind a space. Fails only when out of memory.
pub fn push_ops(text: &mut String, ops: &[Op]) -> Result<(), AllocError>
    ensures { OnOk result (string_bytes text.new ≡ string_bytes text.old
        ++ behind_spaces (map name_of ops.now)) }
{
    for op in ops {
        write!(text, " {op}")?;
    }
    Ok(())
}

/// The field of a destination, and the spare bits if they are not 0, each behind a space.
fn push_field(text: &mut String, dest: u16, spare: u8) -> Result<(), AllocError>
    ensures { OnOk result (string_bytes text.new ≡ string_bytes text.old
        ++ behind_spaces (field_texts (Some dest) spare)) }
{
    write!(text, " ${dest:05X}")?;
    if spare != 0 {
        write!(text, " / {spare}")?;
    }
    Ok(())
}
