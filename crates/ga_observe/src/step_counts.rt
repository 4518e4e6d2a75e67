ghost use Rattle.std.specs.Prelude.{◌≡◌};
ghost use Rattle.ga_chip.specs.Run.{ran, turns_of};
ghost use Rattle.ga_observe.specs.Counts.{Counts};
ghost use Rattle.ga_observe.specs.Seen.{steps_seen, turns_numbered};

use crate::observer::Observer;
use crate::observing::turns;
use crate::step::Step;
use ga_chip::Chip;
use ga_place::Node;
use std::marker::Model;

/// An observer that counts the steps of each node. A contract sees it as the counts, in order of
/// name.
#[derive(Drop)]
pub struct StepCounts {
    counts: [u64; 144],
}

impl Model for StepCounts {
    ghost use Rattle.std.specs.Prelude.{ℕ, List};

    ghost Value = { List ℕ };

    ghost view = { λ counts. counts.counts };
}

impl StepCounts {
    ghost use Rattle.std.specs.Prelude.{[], ◌-◌, ◌^◌, List, min};
    ghost use Rattle.ga_observe.specs.Counts.{count_of};
    ghost use Rattle.ga_observe.specs.declared.step.Step.{Step};

    /// No steps.
    pub fn new() -> Self
        ensures { Counts result [] }
    {
        StepCounts { counts: [0; 144] }
    }

    /// How many steps of a node the observer has seen, but at most 2^64 - 1.
    pub fn count(&self, node: Node) -> u64
        ensures { (steps : List Step) → Counts self.now steps
            → result ≡ min (count_of node steps) (2 ^ 64 - 1) }
    {
        self.counts[node.index()]
    }
}

impl Observer for StepCounts {
    ghost has_seen = { λ _ counts steps. Counts counts steps };

    fn see(&mut self, step: Step) {
        let index = step.node.index();
        self.counts[index] = self.counts[index].saturating_add(1);
    }
}

/// Makes `count` turns, as `Chip::turns` makes them. Answers how many steps each node made.
pub fn count_steps(chip: &mut Chip, count: u32) -> StepCounts
    ensures chip { chip.new ≡ ran chip.old (turns_of count) }
    ensures counts { Counts result (steps_seen chip.old (turns_numbered count)) }
{
    let mut counts = StepCounts::new();
    let _moved = turns(chip, &mut counts, count);
    counts
}
