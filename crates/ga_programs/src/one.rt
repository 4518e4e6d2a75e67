ghost use Rattle.std.specs.Prelude.{◌≡◌, string_bytes};
ghost use Rattle.ga_node.specs.Slot.{after_tries};
ghost use Rattle.ga_input.specs.Fault.{Gives};
ghost use Rattle.ga_programs.specs.One.{one_output};

use ga_input::{ServeError, words_of};
use ga_node::NodeState;
use ga_place::Node;
use std::alloc::Global;

/// Node 000 with the words of the input in its memory and P 000, after `tries` tries, as a line.
#[tactic(auto, unfolding(crate::specs::One::one_text))]
pub fn output(alloc: Global, tries: u32, input: &[u8]) -> Result<String, ServeError>
    ensures { Gives string_bytes result (one_output tries input.now) }
{
    let words = words_of(alloc, input)?;
    let node = Node::new(0).unwrap();
    let state = after_tries(NodeState::loaded(node, &words, 0), tries);
    let line = state.line(alloc)?;
    Ok(line)
}

/// The node after `tries` tries. Each is a step if the node needs nothing from outside.
///
/// It stays a function of its own in the built program, since its loop is faster with all registers
/// to itself.
#[inline(never)]
fn after_tries(mut state: NodeState, tries: u32) -> NodeState
    ensures { result ≡ after_tries tries state }
{
    for _ in 0..tries {
        let _moved = state.try_own();
    }
    state
}
