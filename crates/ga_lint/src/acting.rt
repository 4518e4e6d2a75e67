//! What the words do to which execution comes.
ghost use Rattle.std.specs.Prelude.{◌≡◌, ◌<◌, false};
ghost use Rattle.std.specs.List.{list_any};
ghost use Rattle.std.specs.Option.{option_map_or};
ghost use Rattle.ga_disasm.specs.Disassembling.{item_view};
ghost use Rattle.ga_lint.specs.Acting as spec;
ghost use Rattle.ga_lint.specs.NodeView as view;
ghost use Rattle.ga_lint.specs.inner.NodeText.{node_of};

use crate::lookups::{dest_in, is_warm, land};
use crate::node_text::NodeText;
use crate::port_writes::writes;
use crate::reaching::{goes_on, is_code_at, is_start, sets_b};
use crate::unext_repeats::repeats;
use ga_disasm::Item as Word;
use ga_place::Where;
use ga_word::Op;

/// What a word may do.
#[derive(Clone, Copy)]
pub(crate) enum Act {
    /// Runs words that its neighbours give, writes over the next word, or goes anywhere.
    TakesWords,
    /// Runs words of memory that aren't code of the node.
    LeavesCode,
    /// Puts a word into R that no `call` put there.
    SetsR,
    WritesByA,
    WritesByB,
}

/// Whether a word of the node to which execution comes does this.
pub(crate) fn does(node: &NodeText<'_>, act: Act) -> bool
    ensures { result ≡ spec.does (node_of node.now) act }
{
    let has_b = sets_b(node.words);
    let mut comes = false;
    for (at, word) in node.words.iter().enumerate() {
        match word {
            Word::Code(packed) => {
                let runs = comes || is_start(node, at);
                if runs && acts(node, act, at, word) {
                    return true;
                }
                comes = runs && goes_on(has_b, packed.ops.as_slice());
            }
            Word::Follower(_) => {}
            Word::Data(_) => comes = false,
        }
    }
    false
}

/// Whether the word at an address does this.
fn acts(node: &NodeText<'_>, act: Act, at: usize, word: &Word) -> bool
    requires { at < 64 }
    ensures { result ≡ spec.acts (node_of node.now) act at (item_view word.now) }
{
    match word {
        Word::Code(packed) => {
            let ops = packed.ops.as_slice();
            has_act(act, ops) || repeats_act(act, ops) || leads_to_act(node, act, at, word)
        }
        _ => false,
    }
}

/// Whether the destination of the word there does this.
fn leads_to_act(node: &NodeText<'_>, act: Act, at: usize, word: &Word) -> bool
    requires { at < 64 }
    ensures { result
        ≡ option_map_or (λ dest. spec.is_act_at act (node_of node.now) (view.lands dest))
        (view.dest_in at (item_view word.now)) false }
{
    match dest_in(at, word) {
        Some(dest) => is_act_at(act, node, land(dest)),
        None => false,
    }
}

fn is_act_at(act: Act, node: &NodeText<'_>, reached: Where) -> bool
    ensures { result ≡ spec.is_act_at act (node_of node.now) reached }
{
    match (act, reached) {
        (Act::TakesWords, Where::Rom(at)) => is_warm(at),
        (Act::TakesWords, Where::Ports(_)) => true,
        (Act::LeavesCode, Where::Ram(at)) => !is_code_at(node, usize::from(at)),
        _ => false,
    }
}

fn repeats_act(act: Act, ops: &[Op]) -> bool
    ensures { result ≡ spec.repeats_act act ops.now }
{
    matches!(act, Act::LeavesCode) && repeats(true, ops)
}

fn has_act(act: Act, ops: &[Op]) -> bool
    ensures { result ≡ list_any (spec.is_act act) ops.now }
{
    for op in ops {
        if is_act(act, *op) {
            return true;
        }
    }
    false
}

fn is_act(act: Act, op: Op) -> bool
    ensures { result ≡ spec.is_act act op }
{
    match act {
        Act::TakesWords => matches!(op, Op::Execute | Op::StoreP),
        Act::LeavesCode => false,
        Act::SetsR => matches!(op, Op::Push | Op::Next),
        Act::WritesByA => writes(false, op),
        Act::WritesByB => writes(true, op),
    }
}
