//! The last step of a node.
ghost use Rattle.std.specs.Prelude.{◌≡◌, None};

use ga_observe::{Observer, Step};
use ga_place::Node;

/// An observer that keeps the last step of a node.
#[derive(Clone, Copy)]
pub(crate) struct LastStep {
    node: Node,
    pub(crate) step: Option<Step>,
}

impl LastStep {
    /// No step of a node yet.
    pub(crate) fn of(node: Node) -> Self
        ensures node { result.node ≡ node }
        ensures none { result.step ≡ None }
    {
        LastStep { node, step: None }
    }
}

impl Observer for LastStep {
    ghost use Rattle.std.specs.Prelude.{◌≡◌};
    ghost use Rattle.ga_trace.specs.Last.{last_by};

    ghost has_seen = { λ begun last steps. (last.node ≡ begun.node)
        × (last.step ≡ last_by begun.node begun.step steps) };

    fn see(&mut self, step: Step) {
        if step.node == self.node {
            self.step = Some(step);
        }
    }
}
