//! What one run shows of all runs: with a race, without one, and at rest.
ghost use Rattle.std.specs.Prelude.{◌≡◌, IfSome, false, true};
ghost use Rattle.ga_chip.specs.Run.{ran, tries_of, words_fed};
ghost use Rattle.ga_race.specs.Clocks.{steps_in};
ghost use Rattle.ga_race.specs.Races.{IsAtRest, IsDeterminate, IsDeterminateWithin};
ghost use Rattle.ga_race.specs.Rounds.{HasNoBreaks};
ghost use Rattle.ga_law_examples.specs.Races.{CanGoTwoWays, IsSettled};

use ga_asm::assemble_text;
use ga_chip::laws::runs;
use ga_chip::{Chip, Try};
use ga_debug::placed_chip;
use ga_observe::run;
use ga_place::Node;
use ga_race::laws::{no_race, race as race_differs, watch as watch_finds};
use ga_race::{RaceWatch, Verdict, counts_fit, race};
use ga_word::Word18;
use std::alloc::Global;

/// Makes tries of a chip under a watch, and answers whether they have a race. If so, two lists of
/// tries differ, in both of which no node makes more steps. If not, all runs agree in which no node
/// makes more steps; and without this bound, if the chip is then at rest. `None` only when out of
/// memory.
pub fn watched_tries(alloc: Global, chip: &mut Chip, tries: &[Try]) -> Option<bool>
    ensures chip { IfSome result (λ _. chip.new ≡ ran chip.old (tries_of tries.now)) }
    ensures race { IfSome result (λ found. found ≡ true → CanGoTwoWays chip.old tries.now) }
    ensures none { IfSome result (λ found. found ≡ false
        → IsDeterminateWithin chip.old (steps_in chip.old (tries_of tries.now))
        (words_fed chip.old (tries_of tries.now))) }
    ensures at_rest { IfSome result (λ found. found ≡ false → IsAtRest chip.new
        → IsDeterminate chip.old (words_fed chip.old (tries_of tries.now))) }
{
    chip.legal();
    counts_fit(chip);
    watch_finds();
    no_race();
    race_differs();
    let Ok(mut watch) = RaceWatch::new(alloc, chip) else {
        return None;
    };
    run(chip, &mut watch, tries);
    Some(watch.found())
}

/// A chip in which 708 sends 5 and 7 to 709, which adds them. `None` only when out of memory.
pub fn sum_chip(alloc: Global) -> Option<Chip>
    ensures { IfSome result HasNoBreaks }
{
    let source = "node 708 right a! 5 ! 7 ! jump warm node 709 right a! @ @ + jump warm";
    let Ok(images) = assemble_text(alloc, source) else {
        return None;
    };
    let Ok(chip) = placed_chip(alloc, &images) else {
        return None;
    };
    Some(chip)
}

/// Runs a chip for at most 1000 turns. If it comes to rest without a race, answers T of a node
/// there: after any tries it is this too, once the node has made as many steps. `None` if it
/// doesn't come to rest, or when out of memory.
pub fn settled_top(alloc: Global, chip: &mut Chip, node: Node) -> Option<Word18>
    requires breaks { HasNoBreaks chip.old }
    ensures { IfSome result (IsSettled chip.old chip.new node) }
{
    runs();
    let Ok(report) = race(alloc, chip, 1000) else {
        return None;
    };
    match report.verdict {
        Verdict::AtRest { .. } => Some(chip.state(node).t()),
        Verdict::Race(_) | Verdict::Round { .. } | Verdict::Open => None,
    }
}
