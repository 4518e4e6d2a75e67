ghost use Rattle.ga_race.specs.Watch.{CountsFit};

use ga_chip::Chip;
use ga_place::Node;

/// The count of each node's steps has at most 64 bits. This call changes nothing; a proof gets the
/// fact from it, as a premise of `laws::watch`.
pub fn counts_fit(chip: &Chip)
    ensures { CountsFit chip.now }
{
    chip.legal();
    for index in 0..144 {
        // Reading a count gives the proof its range.
        let _steps = chip.state(Node::at(index)).steps();
    }
}
