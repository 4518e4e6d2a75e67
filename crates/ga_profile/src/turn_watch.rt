//! An observer of what each node does in the turns of a window.
ghost use Rattle.std.specs.Prelude.{◌≡◌, ◌<◌, ℕ, IfOk, false, get_or, length, replicate};
ghost use Rattle.ga_place.specs.Cell.{name_at};
ghost use Rattle.ga_chip.specs.Chip as chips;
ghost use Rattle.ga_trace.specs.Rest.{spins};
ghost use Rattle.ga_trace.specs.Spinning.{Watches};
ghost use Rattle.ga_profile.specs.NodeTurns.{NO_TURNS};

use crate::node_turns::{NodeTurns, after_step, no_turns};
use ga_chip::Chip;
use ga_observe::{Observer, Step, turn};
use ga_trace::SpinWatch;
use ga_trace::laws::known_spins;
use std::alloc::{AllocError, Global};

/// What each node did in a window from a turn on.
#[derive(Drop)]
pub struct TurnWatch {
    from: u64,
    spins: SpinWatch,
    /// Which nodes spin in the turn that is made.
    spinning: [bool; 144],
    /// In order of name.
    pub nodes: Vec<NodeTurns>,
    ghost all: { length nodes.items ≡ 144 },
    ghost flags: { length spinning ≡ 144 },
}

impl TurnWatch {
    ghost use Rattle.std.specs.Prelude.{◌+◌, ◌≤◌};
    ghost use Rattle.ga_profile.specs.HasRun.{HasRun};

    /// A window from a turn on, of a chip that makes its first turn next.
    pub fn new(alloc: Global, from: u64) -> Result<Self, AllocError>
        ensures known { IfOk result (λ watch. (chip : chips.Chip) → Watches chip watch.spins) }
        ensures run { IfOk result (λ watch. (chip : chips.Chip) → HasRun from chip 0 chip watch) }
    {
        Ok(TurnWatch {
            from,
            spins: SpinWatch::new(),
            spinning: [false; 144],
            nodes: unseen(alloc)?,
        })
    }

    /// Makes the turns of a chip from one on up to another.
    pub fn advance(&mut self, chip: &mut Chip, first: u32, end: u32)
        requires order { first ≤ end }
        requires known { Watches chip.old self.old.spins }
        ensures known { Watches chip.new self.new.spins }
        ensures run { (from : ℕ) (start : chips.Chip) → HasRun from start first chip.old self.old
            → HasRun from start end chip.new self.new }
    {
        for number in first..end {
            self.turn(chip, u64::from(number));
        }
    }

    /// Makes the turn of a number.
    fn turn(&mut self, chip: &mut Chip, number: u64)
        requires known { Watches chip.old self.old.spins }
        ensures known { Watches chip.new self.new.spins }
        ensures run { (from : ℕ) (start : chips.Chip) → HasRun from start number chip.old self.old
            → HasRun from start (number + 1) chip.new self.new }
    {
        known_spins();
        chip.legal();
        self.mark(chip);
        let _moved = turn(chip, self, number);
    }

    /// Notes which nodes spin.
    fn mark(&mut self, chip: &Chip)
        requires { Watches chip.now self.old.spins }
        ensures known { Watches chip.now self.new.spins }
        ensures from { self.new.from ≡ self.old.from }
        ensures nodes { self.new.nodes.items ≡ self.old.nodes.items }
        ensures each { (index : ℕ) → index < 144
            → get_or self.new.spinning index false ≡ spins chip.now (name_at index) }
    {
        for index in 0..144 {
            self.spinning[index] = self.spins.spins(chip, index);
        }
    }
}

/// No turns, for each node.
fn unseen(alloc: Global) -> Result<Vec<NodeTurns>, AllocError>
    ensures { IfOk result (λ nodes. nodes.items ≡ replicate 144 NO_TURNS) }
{
    let none = no_turns();
    let nodes = vec![in alloc; none; 144]?;
    Ok(nodes)
}

impl Observer for TurnWatch {
    ghost use Rattle.ga_profile.specs.HasRun.{GoesOn};

    ghost has_seen = { GoesOn };

    fn see(&mut self, step: Step) {
        let index = step.node.index();
        let is_spinning = self.spinning[index];
        self.nodes[index] = after_step(self.from, is_spinning, &self.nodes[index], &step);
    }
}
