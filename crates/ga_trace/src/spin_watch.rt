//! Which nodes of a chip spin, as it runs.
ghost use Rattle.std.specs.Prelude.{◌≡◌, ◌≤◌, ◌<◌, ℕ, Bool, IfSome, Some};
ghost use Rattle.ga_node.specs.Spins.{IsAhead, OwnFor};
ghost use Rattle.ga_node.specs.State.{State};
ghost use Rattle.ga_place.specs.Cell.{name_at};
ghost use Rattle.ga_chip.specs.Chip.{Chip, state_of};
ghost use Rattle.ga_chip.specs.Run.{has_break};
ghost use Rattle.ga_trace.specs.Rest.{are_unbroken, is_unbroken, spin_count, spins, spins_with};
ghost use Rattle.ga_trace.specs.Spinning.{Knows, Watches};

use ga_chip::Chip;
use ga_node::{Ahead, LONGEST_SPIN, NodeState, Place};
use ga_place::Node;

/// What was ahead of a node in own steps, when it had made some steps.
#[derive(Clone, Copy)]
pub(crate) struct Known {
    steps: u64,
    ahead: Ahead,
    /// If the node begins to spin, whether none of its steps from there on begins at a breakpoint.
    is_unbroken: bool,
}

impl Known {
    /// What is ahead of a node.
    fn new(chip: &Chip, node: Node) -> Self
        ensures { (state : State) → state_of chip.now node ≡ Some state
            → Knows (has_break chip.now node) result state × (result.steps ≡ state.steps)
            × IsAhead state result.ahead }
    {
        let state = chip.state(node);
        let ahead = state.look_ahead();
        let is_unbroken = match ahead {
            Ahead::Spins { after } => {
                let mut spinning = state.uncounted();
                let _made = spinning.run_own(true, after);
                spins_with(chip, node, &spinning)
            }
            Ahead::Works { .. } => false,
        };
        Known {
            steps: state.steps(),
            ahead,
            is_unbroken,
        }
    }

    /// Whether the node spins now, if that is known.
    fn spins(&self, state: &NodeState) -> Option<bool>
        requires { self.now.steps ≤ state.now.steps }
        ensures { (is_break : ℕ → Bool) → Knows is_break self.now state.now
            → IfSome result (λ spins. spins ≡ spins_with is_break state.now) }
    {
        let passed = state.steps() - self.steps;
        match self.ahead {
            Ahead::Spins { after } => Some(after <= passed && self.is_unbroken),
            Ahead::Works { states } => { if passed < states { Some(false) } else { None } }
        }
    }
}

/// What is known of the spins of all nodes of a chip that makes turns, by `laws::known_spins`. So
/// each own step is looked at some three times, however long the run is.
#[derive(Drop)]
pub struct SpinWatch {
    nodes: [Known; 144],
}

impl SpinWatch {
    /// Nothing is known.
    pub fn new() -> Self
        ensures { (chip : Chip) → Watches chip result }
    {
        let nothing = Known {
            steps: 0,
            ahead: Ahead::Works { states: 0 },
            is_unbroken: false,
        };
        SpinWatch {
            nodes: [nothing; 144],
        }
    }

    /// How many nodes spin.
    pub(crate) fn count(&mut self, chip: &Chip) -> u8
        requires { Watches chip.now self.old }
        ensures watch { Watches chip.now self.new }
        ensures count { result ≡ spin_count chip.now }
    {
        let mut count = 0;
        for index in 0..144 {
            count += u8::from(self.spins(chip, index));
        }
        count
    }

    /// Whether the node of an index spins.
    pub fn spins(&mut self, chip: &Chip, index: usize) -> bool
        requires index { index < 144 }
        requires watch { Watches chip.now self.old }
        ensures watch { Watches chip.now self.new }
        ensures value { result ≡ spins chip.now (name_at index) }
    {
        let node = Node::at(index);
        if let Some(spins) = self.nodes[index].spins(chip.state(node)) {
            return spins;
        }
        let known = Known::new(chip, node);
        self.nodes[index] = known;
        match known.ahead {
            Ahead::Spins { after } => after == 0 && known.is_unbroken,
            Ahead::Works { .. } => false,
        }
    }
}

/// Whether a node of a chip spins in a state: at most four own steps lead back to it, and none of
/// them begins at a breakpoint of the node.
pub(crate) fn spins_with(chip: &Chip, node: Node, state: &NodeState) -> bool
    ensures { result ≡ spins_with (has_break chip.now node) state.now }
{
    match state.period(LONGEST_SPIN) {
        Some(period) => are_unbroken(chip, node, state, period),
        None => false,
    }
}

/// Whether none of the next own steps of a node begins at a breakpoint of it.
fn are_unbroken(chip: &Chip, node: Node, state: &NodeState, steps: u64) -> bool
    requires own { OwnFor steps state.now }
    requires few { steps ≤ 4 }
    ensures { result ≡ are_unbroken (has_break chip.now node) steps state.now }
{
    let mut copy = state.uncounted();
    for _made in 0..steps {
        if !is_unbroken(chip, node, &copy) {
            return false;
        }
        let _own = copy.try_own();
    }
    true
}

/// Whether the next step of a node begins at no breakpoint of it.
fn is_unbroken(chip: &Chip, node: Node, state: &NodeState) -> bool
    ensures { result ≡ is_unbroken (has_break chip.now node) state.now }
{
    state.place() != Place::Fetch || !chip.has_break(node, state.p() % 0x200)
}
