//! How a run ends: at rest, or going round.
ghost use Rattle.std.specs.Prelude.{◌≡◌, ◌<◌, ℕ, IfOk, IfSome, true};
ghost use Rattle.ga_chip.specs.Chip.{Chip};
ghost use Rattle.ga_chip.specs.Run.{ran, turns_of};
ghost use Rattle.ga_race.specs.Rounds.{HasNoBreaks};
ghost use Rattle.ga_race.specs.Spins.{RestsOrSpins, ShowsSpins};
ghost use Rattle.ga_race.specs.inner.Ending.{AreSpinning, IsAgain, IsKept, IsSearch, MadeTwice};

use crate::going::is_resting;
use crate::spin::is_spinning;
use ga_chip::Chip;
use ga_place::Node;
use std::alloc::{AllocError, Global};

/// The nodes that spin, if each other node rests; `None` if some node may go on otherwise. At most
/// `limit` own steps of a node are looked at.
pub(crate) fn at_rest(chip: &Chip, limit: u64) -> Option<[bool; 144]>
    ensures { IfSome result (λ spins. HasNoBreaks chip.now → ShowsSpins chip.now spins) }
{
    chip.legal();
    if goes_on(chip, limit) {
        return None;
    }
    let mut spins = [false; 144];
    for index in 0..144 {
        spins[index] = rests_or_spins(chip, Node::at(index), limit)?;
    }
    Some(spins)
}

/// Whether a node that is awake neither rests nor spins. This is seen sooner than that all do.
fn goes_on(chip: &Chip, limit: u64) -> bool {
    for index in 0..144 {
        let node = Node::at(index);
        if !chip.is_asleep(node) && rests_or_spins(chip, node, limit).is_none() {
            return true;
        }
    }
    false
}

/// Whether a node spins, if it rests or spins.
fn rests_or_spins(chip: &Chip, node: Node, limit: u64) -> Option<bool>
    ensures { IfSome result (λ spins. HasNoBreaks chip.now → RestsOrSpins chip.now node spins) }
{
    if is_resting(chip, node) {
        return Some(false);
    }
    if is_spinning(chip.state(node), limit) {
        return Some(true);
    }
    None
}

/// A search for a run that goes round. The chip is kept after 4, 8, 16, .. turns, and compared
/// after each fourth turn.
#[derive(Drop)]
pub(crate) struct RoundSearch {
    kept: KeptChip,
    kept_after: u64,
    /// The turns of a round that was made once, from the kept chip on.
    round: Option<u64>,
}

impl RoundSearch {
    /// A search from a chip on, before the first turn.
    pub(crate) fn new(alloc: Global, chip: &Chip) -> Result<Self, AllocError>
        ensures { IfOk result (λ search. IsSearch chip.now search 0) }
    {
        chip.legal();
        Ok(RoundSearch {
            kept: KeptChip::new(alloc, chip, 0)?,
            kept_after: 0,
            round: None,
        })
    }

    /// Looks at the chip after a number of turns. Answers the turns of a round that was made twice.
    pub(crate) fn look(
        &mut self,
        alloc: Global,
        chip: &Chip,
        turns: u64,
    ) -> Result<Option<u64>, AllocError>
        ensures search { IfOk result (λ made. (start : Chip) (before : ℕ) → before < turns
            → IsSearch start self.old before → chip.now ≡ ran start (turns_of turns)
            → IsSearch start self.new turns) }
        ensures made { IfOk result (λ made. (start : Chip) (before : ℕ)
            → IsSearch start self.old before → HasNoBreaks start
            → IfSome made (MadeTwice start turns)) }
    {
        if turns % 4 != 0 {
            return Ok(None);
        }
        if let Some(round) = self.round {
            let is_twice = turns.saturating_sub(self.kept_after).saturating_sub(round) >= round;
            return Ok(if is_twice { Some(round) } else { None });
        }
        if self.kept.is_again(chip) {
            self.round = Some(turns.saturating_sub(self.kept_after));
        } else if turns >= self.kept_after.saturating_mul(2) {
            self.kept = KeptChip::new(alloc, chip, turns)?;
            self.kept_after = turns;
        }
        Ok(None)
    }
}

/// A chip that was kept at a moment of a run, to see whether it comes back.
#[derive(Drop)]
struct KeptChip {
    chip: Chip,
    spins: [bool; 144],
}

impl KeptChip {
    /// A chip as it is. At most `limit` own steps of a node are looked at.
    fn new(alloc: Global, chip: &Chip, limit: u64) -> Result<Self, AllocError>
        ensures chip { IfOk result (λ kept. kept.chip ≡ chip.now) }
        ensures spins { IfOk result (λ kept. AreSpinning kept.chip kept.spins) }
    {
        Ok(KeptChip {
            chip: chip.copied(alloc)?,
            spins: spinning(chip, limit),
        })
    }

    /// Whether a chip is as it was kept, but for the numbers of steps and the nodes that spin.
    fn is_again(&self, chip: &Chip) -> bool
        ensures { result ≡ true → IsAgain self.now chip.now }
    {
        for index in 0..144 {
            if !self.spins[index] && !is_kept(chip, &self.chip, Node::at(index)) {
                return false;
            }
        }
        self.chip.cells().words() == chip.cells().words()
    }
}

/// The nodes that spin. At most `limit` own steps of a node are looked at.
fn spinning(chip: &Chip, limit: u64) -> [bool; 144]
    ensures { AreSpinning chip.now result }
{
    let mut spins = [false; 144];
    for index in 0..144 {
        spins[index] = is_spinning(chip.state(Node::at(index)), limit);
    }
    spins
}

/// Whether a node is as it was kept earlier in a run. Without a step since then it is, and its
/// stream is if as many words are left.
fn is_kept(chip: &Chip, kept: &Chip, node: Node) -> bool
    ensures { result ≡ true → IsKept chip.now kept.now node }
{
    let state = chip.state(node);
    let before = kept.state(node);
    state.steps() == before.steps()
        || chip.stream_left(node) == kept.stream_left(node) && state.is_again(before)
}
