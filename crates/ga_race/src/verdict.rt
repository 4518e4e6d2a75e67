//! The verdict on a chip: whether the schedule decides what it does.
ghost use Rattle.std.specs.Prelude.{◌≡◌, ◌≢◌, ◌≤◌, ◌<◌, ℕ, IfOk, None, Some, length};
ghost use Rattle.ga_chip.specs.Chip.{Chip};
ghost use Rattle.ga_chip.specs.Run.{moves, ran, turns_of};
ghost use Rattle.ga_observe.specs.Seen.{steps_seen, turns_numbered};
ghost use Rattle.ga_race.specs.Reads.{multiport_takes};
ghost use Rattle.ga_race.specs.Rounds.{HasNoBreaks};
ghost use Rattle.ga_race.specs.Found.{IsAmong};
ghost use Rattle.ga_race.specs.Verdict.{IfRace, IsSo};
ghost use Rattle.ga_race.specs.inner.Ending.{IfRound, IsFound, IsSearch, MadeTwice};

use crate::counts::counts_fit;
use crate::ending::{RoundSearch, at_rest};
use crate::found::Race;
use crate::run_watch::RunWatch;
use ga_chip::Chip;
use ga_observe::turn;
use std::alloc::{AllocError, Global};

/// What one run shows of all runs of a chip.
#[derive(Clone, Copy)]
pub enum Verdict {
    /// The schedule decides which word a node takes.
    Race(Race),
    /// No race. Each node rests, or spins: own steps alone lead back to the same state.
    AtRest { spins: [bool; 144] },
    /// No race in two rounds of this many turns, after each of which all is as before it, but for
    /// numbers of steps and words.
    Round { turns: u64 },
    /// No race in the turns that were made.
    Open,
}

/// A verdict, and the run that it comes from.
#[derive(Clone, Copy)]
pub struct Report {
    pub verdict: Verdict,
    /// How many turns were made.
    pub turns: u64,
    /// How many steps the nodes made in them.
    pub steps: u64,
    /// How many multiport reads took a word.
    pub multiport_reads: u64,
}

/// Makes turns, at most `turns`, until there is a verdict on all runs of the chip: a race, rest, or
/// a round. Fails only when out of memory.
pub fn race(alloc: Global, chip: &mut Chip, turns: u32) -> Result<Report, AllocError>
    ensures chip { IfOk result (λ report. chip.new ≡ ran chip.old (turns_of report.turns)) }
    ensures steps { IfOk result (λ report.
        report.steps ≡ length (moves chip.old (turns_of report.turns))) }
    ensures reads { IfOk result (λ report. report.multiport_reads
        ≡ multiport_takes (steps_seen chip.old (turns_numbered report.turns))) }
    ensures verdict { IfOk result (λ report. IsSo chip.old report.turns report.verdict) }
    // a race is shown as a watch over these turns shows it, with the turn of its take
    ensures shown { IfOk result (λ report. IfRace report.verdict
        (IsAmong chip.old.cells (steps_seen chip.old (turns_numbered report.turns)))) }
    ensures turn { IfOk result (λ report.
        IfRace report.verdict (λ race. race.take.turn < report.turns)) }
    // without another verdict all turns are made
    ensures open { IfOk result (λ report. report.verdict ≡ Verdict.Open → report.turns ≡ turns) }
    ensures most { IfOk result (λ report. report.turns ≤ turns) }
{
    chip.legal();
    counts_fit(chip);
    let mut watch = RunWatch::new(alloc, chip)?;
    let mut search = RoundSearch::new(alloc, chip)?;
    let mut steps = 0;
    for number in 0..u64::from(turns) {
        steps += u64::from(turn(chip, &mut watch, number));
        match verdict_at(alloc, chip, &watch, &mut search, number + 1)? {
            Some(verdict) => return Ok(reported(verdict, number + 1, steps, &watch)),
            None => {}
        }
    }
    let turns = u64::from(turns);
    Ok(reported(at_rest_or(chip, turns, Verdict::Open), turns, steps, &watch))
}

/// A verdict with the run that it comes from.
fn reported(verdict: Verdict, turns: u64, steps: u64, watch: &RunWatch) -> Report
    ensures verdict { result.verdict ≡ verdict }
    ensures turns { result.turns ≡ turns }
    ensures steps { result.steps ≡ steps }
    ensures reads { result.multiport_reads ≡ watch.now.multiport_reads }
{
    Report {
        verdict,
        turns,
        steps,
        multiport_reads: watch.multiport_reads,
    }
}

/// The verdict after a number of turns, if there is one.
fn verdict_at(
    alloc: Global,
    chip: &Chip,
    watch: &RunWatch,
    search: &mut RoundSearch,
    turns: u64,
) -> Result<Option<Verdict>, AllocError>
    ensures found { IfOk result (IsFound watch.now.races.race chip.now) }
    ensures search { IfOk result (λ verdict. verdict ≡ None → (start : Chip) (before : ℕ)
        → before < turns → IsSearch start search.old before
        → chip.now ≡ ran start (turns_of turns) → IsSearch start search.new turns) }
    ensures round { IfOk result (λ verdict. (start : Chip) (before : ℕ)
        → IsSearch start search.old before → HasNoBreaks start
        → IfRound verdict (MadeTwice start turns)) }
    ensures not_open { IfOk result (λ verdict. verdict ≢ Some Verdict.Open) }
{
    if let Some(race) = watch.races.race() {
        return Ok(Some(Verdict::Race(race)));
    }
    // Looked at after 4, 8, 16, .. such turns, over as many steps of a node: so it takes no longer
    // than the turns did.
    let quiet = watch.quiet_turns(turns);
    if quiet >= 4 && quiet.is_power_of_two() {
        if let Some(spins) = at_rest(chip, quiet) {
            return Ok(Some(Verdict::AtRest { spins }));
        }
    }
    match search.look(alloc, chip, turns)? {
        // a chip at rest is as it was, too
        Some(round) => Ok(Some(at_rest_or(chip, turns, Verdict::Round { turns: round }))),
        None => Ok(None),
    }
}

/// The verdict of rest, if the chip is at rest after a number of turns, or another one.
fn at_rest_or(chip: &Chip, turns: u64, other: Verdict) -> Verdict
    ensures found { IsFound None chip.now (Some other) → IsFound None chip.now (Some result) }
    ensures round { IfRound (Some result) (λ period. other ≡ Verdict.Round period) }
    ensures open { result ≡ Verdict.Open → other ≡ Verdict.Open }
{
    match at_rest(chip, turns) {
        Some(spins) => Verdict::AtRest { spins },
        None => other,
    }
}
