//! Which warnings apply to a word.
ghost use Rattle.std.specs.Prelude.{◌≡◌, ◌<◌};
ghost use Rattle.ga_lint.specs.NodeWarnings as spec;
ghost use Rattle.ga_lint.specs.inner.NodeText.{node_of};

use crate::data_runs::{begins_in_data, into_data};
use crate::leaves_extended::leaves_extended;
use crate::node_text::NodeText;
use crate::over_memory::over_memory;
use crate::port_writes::{Refused, writes_refused_at};
use crate::reads_io::reads_io;
use crate::runs_off::runs_off;
use crate::split_loop::split_loop;
use crate::straight_run::is_first_wrong;
use crate::unext_repeats::unext_repeats;
use crate::unreachable::unreachable;
use crate::warning::WarningKind;
use ga_place::Node;

/// Whether a warning of this kind applies to the word at an address of a node with this name.
pub(crate) fn applies(kind: WarningKind, name: Node, node: &NodeText<'_>, address: usize) -> bool
    requires { address < 64 }
    ensures { result ≡ spec.applies kind name (node_of node.now) address }
{
    match kind {
        WarningKind::UnextRepeats => unext_repeats(node, address),
        WarningKind::SplitLoop => split_loop(node, address),
        WarningKind::RunsOff => runs_off(node, address),
        WarningKind::PushesTooMany | WarningKind::PopsTooMany | WarningKind::ReturnsNowhere => {
            is_first_wrong(kind, node, address)
        }
        WarningKind::UnusedLabel => false,
        WarningKind::Unreachable => unreachable(node, address),
        WarningKind::SeveralPorts => writes_refused_at(&Refused::Several, node, address),
        WarningKind::LeavesExtended => leaves_extended(node, address),
        WarningKind::OverMemory => over_memory(node, address),
        WarningKind::IntoData => into_data(node, address),
        WarningKind::BeginsInData => begins_in_data(node, address),
        WarningKind::ReadsIo => reads_io(node, address),
        WarningKind::EdgePort => writes_refused_at(&Refused::Edge(name), node, address),
    }
}
