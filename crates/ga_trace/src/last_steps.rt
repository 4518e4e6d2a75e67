//! The last step of each node.
ghost use Rattle.std.specs.Prelude.{◌≡◌, length};
ghost use Rattle.ga_trace.specs.inner.LastSteps.{HaveStarted};

use ga_chip::Chip;
use ga_observe::{Observer, Step};
use ga_place::Node;
use ga_word::Word18;
use std::alloc::{AllocError, Global};

/// The last step of a node in a turn, and R before the turn.
#[derive(Clone, Copy)]
pub(crate) struct NodeStep {
    pub(crate) r: Word18,
    pub(crate) step: Option<Step>,
}

/// An observer that keeps the last step of each node.
#[derive(Drop)]
pub(crate) struct LastSteps {
    pub(crate) nodes: Vec<NodeStep>,
    ghost all: { length nodes.items ≡ 144 },
}

impl LastSteps {
    /// Those of any node, for all.
    pub(crate) fn new(alloc: Global, chip: &Chip) -> Result<Self, AllocError> {
        let none = NodeStep {
            r: chip.state(Node::at(0)).r(),
            step: None,
        };
        Ok(LastSteps {
            nodes: vec![in alloc; none; 144]?,
        })
    }

    /// No steps of the nodes of a chip yet.
    pub(crate) fn start(&mut self, chip: &Chip)
        ensures { HaveStarted chip.now self.new.nodes.items }
    {
        for index in 0..144 {
            self.nodes[index] = NodeStep {
                r: chip.state(Node::at(index)).r(),
                step: None,
            };
        }
    }
}

impl Observer for LastSteps {
    ghost use Rattle.ga_trace.specs.inner.LastSteps.{HaveSeen};

    ghost has_seen = { λ begun last steps. HaveSeen begun.nodes.items last.nodes.items steps };

    fn see(&mut self, step: Step) {
        let index = step.node.index();
        self.nodes[index].step = Some(step);
    }
}
