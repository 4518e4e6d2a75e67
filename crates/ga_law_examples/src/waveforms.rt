//! What the text of a waveform shows of a run.
ghost use Rattle.std.specs.Prelude.{◌≡◌, [], IfOk, IfSome, string_bytes};
ghost use Rattle.ga_wave.specs.Wave.{waveform};
ghost use Rattle.ga_law_examples.specs.Waveforms.{HasNoWords, IsReadable, NodesAreApart, UnwrittenIsKept, WrittenArePosted};

use ga_asm::assemble_text;
use ga_chip::Chip;
use ga_place::Node;
use ga_wave::laws::{
    declared_identifiers, identifiers, label_words, last_values, reads_back, words_in_order,
};
use ga_wave::waveform;
use std::alloc::{AllocError, Global};

/// The waveform of this many turns of a chip, with the labels of a source text. A reader finds each
/// value that a turn shows, by the names of nodes and signals. `None` if the text has a fault, or
/// when out of memory.
pub fn waveform_of_text(
    alloc: Global,
    chip: Chip,
    source: &str,
    nodes: &[Node],
    turns: u32,
) -> Option<String>
    ensures { IfSome result (λ text. IsReadable source.now nodes.now chip turns
        (string_bytes text)) }
{
    label_words();
    declared_identifiers();
    reads_back();
    let Ok(images) = assemble_text(alloc, source) else {
        return None;
    };
    let Ok(text) = waveform(alloc, chip, Some(&images), nodes, turns) else {
        return None;
    };
    Some(text)
}

/// The waveform of this many turns of a chip, without labels. A signal that isn't written keeps its
/// value, and no two nodes share an identifier. If no word is pending at the start, the words of a
/// port are those that its node posts there. Fails only when out of memory.
pub fn plain_waveform(
    alloc: Global,
    chip: Chip,
    nodes: &[Node],
    turns: u32,
) -> Result<String, AllocError>
    ensures text { IfOk result (λ text. string_bytes text ≡ waveform [] nodes.now chip turns) }
    ensures kept { UnwrittenIsKept chip }
    ensures apart { NodesAreApart }
    ensures posted { HasNoWords chip → WrittenArePosted chip }
{
    last_values();
    identifiers();
    words_in_order();
    chip.legal();
    waveform(alloc, chip, None, nodes, turns)
}
