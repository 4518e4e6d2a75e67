//! What a run shows of all runs if it goes round, if nodes spin at its end, and if no node chooses.
ghost use Rattle.std.specs.Prelude.{◌≡◌, ◌+◌, ◌*◌, ℕ, List, length, IfOk, IfSome, true};
ghost use Rattle.ga_chip.specs.Run.{Event, ran, tries_of, turns_of, words_fed};
ghost use Rattle.ga_chip.specs.declared.outcome.Try as asked;
ghost use Rattle.ga_race.specs.Clocks.{steps_in};
ghost use Rattle.ga_race.specs.Races.{HasNoRace, IsDeterminateWithin, IsFed, RunsAgree};
ghost use Rattle.ga_race.specs.Rounds.{CountsLast, HasNoBreaks, no_words};
ghost use Rattle.ga_race.specs.Spins.{IsResting};
ghost use Rattle.ga_law_examples.specs.Spinning as model;

use crate::spinning::spinning_chip;
use ga_asm::assemble_text;
use ga_chip::laws::{one_port, runs};
use ga_chip::{Chip, Try};
use ga_debug::placed_chip;
use ga_race::laws::{no_choice, no_race, no_race_round, no_race_spinning};
use ga_race::{Verdict, race};
use std::alloc::{AllocError, Global};

/// A chip in which a word goes round over 708, 709, 609 and 608. `None` only when out of memory.
pub fn ring_chip(alloc: Global) -> Option<Chip>
    ensures { IfSome result HasNoBreaks }
{
    let source = "node 708 right a! down b! 5 go: ! @b jump go \
        node 709 right a! down b! go: @ !b jump go \
        node 609 down a! right b! go: @ !b jump go \
        node 608 right a! down b! go: @ !b jump go";
    let Ok(images) = assemble_text(alloc, source) else {
        return None;
    };
    let Ok(chip) = placed_chip(alloc, &images) else {
        return None;
    };
    Some(chip)
}

/// Runs a chip for at most 1000 turns. If it goes round without a race, answers the turns of a
/// round. Then no number of turns has a race, and any two runs agree that are fed no words, as long
/// as the counts of steps last. `None` if it doesn't go round, or when out of memory.
pub fn round_of(alloc: Global, chip: &mut Chip) -> Option<u64>
    requires breaks { HasNoBreaks chip.old }
    ensures turns { IfSome result (λ period. (turns : ℕ) → CountsLast chip.old (turns + period)
        → HasNoRace chip.old (turns_of turns)) }
    ensures runs { IfSome result (λ period. (one two : List Event)
        → CountsLast chip.old ((length one + length two) * 4 + period)
        → IsFed chip.old one no_words → IsFed chip.old two no_words
        → RunsAgree chip.old one two) }
{
    chip.legal();
    no_race_round();
    let Ok(report) = race(alloc, chip, 1000) else {
        return None;
    };
    match report.verdict {
        Verdict::Round { turns } => Some(turns),
        Verdict::Race(_) | Verdict::AtRest { .. } | Verdict::Open => None,
    }
}

/// Runs a chip for at most 1000 turns, and answers whether it comes to rest without a race. If so,
/// no tries of the chip move a node that rests then, while others may spin. It is `false` when out
/// of memory, too.
pub fn stays_at_rest(alloc: Global, chip: &mut Chip) -> bool
    requires breaks { HasNoBreaks chip.old }
    ensures { result ≡ true → (tries : List asked.Try) (node : ℕ) → IsResting chip.new node
        → steps_in chip.new (tries_of tries) node ≡ 0 }
{
    runs();
    no_race_spinning();
    let Ok(report) = race(alloc, chip, 1000) else {
        return false;
    };
    chip.legal();
    match report.verdict {
        Verdict::AtRest { .. } => true,
        Verdict::Race(_) | Verdict::Round { .. } | Verdict::Open => false,
    }
}

/// Makes tries of the chip in which each node spins. None of its nodes has a choice, so that any
/// two runs agree in which no node makes more steps than in these tries. Fails only when out of
/// memory.
pub fn spinning_tries(alloc: Global, tries: &[Try]) -> Result<Chip, AllocError>
    ensures chip { IfOk result (λ chip. chip ≡ ran model.spinning_chip (tries_of tries.now)) }
    ensures agree { IfOk result (λ _. IsDeterminateWithin model.spinning_chip
        (steps_in model.spinning_chip (tries_of tries.now))
        (words_fed model.spinning_chip (tries_of tries.now))) }
{
    one_port();
    no_choice();
    no_race();
    let mut chip = spinning_chip(alloc)?;
    chip.legal();
    chip.run(tries);
    Ok(chip)
}
