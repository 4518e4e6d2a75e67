//! Laws of runs without races. They do nothing when run.
ghost use Rattle.ga_race.specs.Races.{NoChoiceNoRace, NoRace, NoRaceAtRest};
ghost use Rattle.ga_race.specs.Rounds.{NoRaceRound, RoundIsDeterminate};
ghost use Rattle.ga_race.specs.Spins.{NoRaceSpinning};
ghost use Rattle.ga_node.specs.Spins.{StillSpins};
ghost use Rattle.ga_race.specs.Decides.{WatchDecides, WatchFindsRaces};
ghost use Rattle.ga_race.specs.Details.{WatchShows};
ghost use Rattle.ga_race.specs.Differs.{RaceDiffers, TriesDiffer};
ghost use Rattle.ga_race.specs.Watch.{StepsAreCounted, WatchFinds};

/// One run without races shows that the chip is determinate as far as the run: any other run agrees
/// with it, whatever the order of its tries and wherever it uses breakpoints, if no node makes more
/// steps and the streams are fed the same words. If the run ends at rest, the chip is determinate:
/// no node can make more steps in another run.
pub fn no_race()
    ensures within { NoRace }
    ensures at_rest { NoRaceAtRest }
{}

/// A run in which no node makes a multiport take has no race.
pub fn no_choice()
    ensures { NoChoiceNoRace }
{}

/// The watch over the steps of a run finds a race exactly if the run has one, and the race that it
/// shows is one of the run. And the counts of these steps have at most 64 bits, if the chip's
/// counts have.
pub fn watch()
    ensures finds { WatchFinds }
    ensures races { WatchFindsRaces }
    ensures decides { WatchDecides }
    ensures shows { WatchShows }
    ensures counted { StepsAreCounted }
{}

/// A node that spins still spins after own steps. If each node rests or spins at the end of a run
/// without races, any two runs agree on their common steps.
pub fn no_race_spinning()
    ensures still { StillSpins }
    ensures spinning { NoRaceSpinning }
{}

/// If a chip goes round without races, no number of turns has a race, and any two runs agree on
/// their common steps.
pub fn no_race_round()
    ensures round { NoRaceRound }
    ensures determinate { RoundIsDeterminate }
{}

/// A race of a run shows two ways for the chip to go within the steps of the run: it can be led to
/// a moment at which a node can take a word at either of two sides, so that the chip isn't
/// determinate. If the run is a list of tries, so are both ways.
pub fn race()
    ensures differs { RaceDiffers }
    ensures tries { TriesDiffer }
{}
