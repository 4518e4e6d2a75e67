//! A list of the words that are pending.
ghost use Rattle.std.specs.Prelude.{◌≡◌, ◌++◌, OnOk, string_bytes};
ghost use Rattle.ga_report.specs.Words.{OPENING, all_words, node_words, side_word, word_item, words_part};

use crate::posted::posted;
use ga_chip::Chip;
use ga_place::{Node, SIDES, Side, neighbour};
use ga_word::Word18;
use std::alloc::AllocError;
use std::fmt::Write;

/// Adds a list of the words that are pending, in order of their writers.
#[tactic(auto, unfolding(crate::specs::Words::words_part))]
pub(crate) fn push_words(text: &mut String, chip: &Chip) -> Result<(), AllocError>
    ensures { OnOk result (string_bytes text.new ≡ string_bytes text.old ++ words_part chip.now) }
{
    push_opening(text)?;
    push_all_words(text, chip)?;
    text.push_str("</ul>\n")
}

/// Adds the begin of the list.
#[tactic(auto, unfolding(crate::specs::Words::OPENING))]
fn push_opening(text: &mut String) -> Result<(), AllocError>
    ensures { OnOk result (string_bytes text.new ≡ string_bytes text.old ++ OPENING) }
{
    text.push_str("<ul class='key'>\n")
}

/// Adds the pending words of all nodes.
#[tactic(auto, unfolding(crate::specs::Words::all_words))]
fn push_all_words(text: &mut String, chip: &Chip) -> Result<(), AllocError>
    ensures { OnOk result (string_bytes text.new ≡ string_bytes text.old ++ all_words chip.now) }
{
    for index in 0..144 {
        push_node_words(text, chip, Node::at(index))?;
    }
    Ok(())
}

/// Adds the pending words of a node.
#[tactic(auto, unfolding(crate::specs::Words::node_words))]
fn push_node_words(text: &mut String, chip: &Chip, node: Node) -> Result<(), AllocError>
    ensures { OnOk result (string_bytes text.new
        ≡ string_bytes text.old ++ node_words chip.now node) }
{
    for side in SIDES {
        push_side_word(text, chip, node, side)?;
    }
    Ok(())
}

/// Adds the word that a node posted at a side, if it isn't read.
fn push_side_word(text: &mut String, chip: &Chip, node: Node, side: Side) -> Result<(), AllocError>
    ensures { OnOk result (string_bytes text.new
        ≡ string_bytes text.old ++ side_word chip.now node side) }
{
    match (posted(chip, node, side), neighbour(node, side)) {
        (Some(word), Some(reader)) => push_word(text, node, reader, word),
        _ => Ok(()),
    }
}

/// Adds a word of a node, and its reader.
#[tactic(auto, unfolding(crate::specs::Words::word_item))]
fn push_word(text: &mut String, node: Node, reader: Node, word: Word18) -> Result<(), AllocError>
    ensures { OnOk result (string_bytes text.new
        ≡ string_bytes text.old ++ word_item node reader word) }
{
    write!(text, "<li>{node} to {reader}: {word}</li>\n")
}
