ghost use Rattle.std.specs.Prelude.{◌≡◌, IfOk, string_bytes};
ghost use Rattle.ga_dump.specs.Node.{node_dump};

use crate::row::{ROW_LENGTH, push_row, text_of};
use ga_node::NodeState;
use std::alloc::{AllocError, Global};

/// A node with its stacks as text: its line, a line of `ds` and the eight words of the data stack
/// below T and S, and one of `rs` and the eight words of the return stack below R. The top of each
/// stack comes first, and words are five hex digits, with one space between. Fails only when out of
/// memory.
#[tactic(auto, unfolding(crate::specs::Node::node_dump))]
pub fn node_text(alloc: Global, state: &NodeState) -> Result<String, AllocError>
    ensures { IfOk result (λ text. string_bytes text ≡ node_dump state.now) }
{
    let mut text = state.line(alloc)?.into_bytes();
    text.reserve(2 * (2 + ROW_LENGTH))?;
    text.extend_from_slice(b"ds")?;
    push_row(&mut text, &state.data_stack())?;
    text.extend_from_slice(b"rs")?;
    push_row(&mut text, &state.return_stack())?;
    Ok(text_of(text))
}
