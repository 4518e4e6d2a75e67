//! Laws of the definitions. They do nothing when run.
ghost use Rattle.ga_wave.specs.Laws.{IdentifiersAreDeclared, IdentifiersDiffer, LabelsAreWords, LastValuesAreShown, ReadsBack, WordsAreInOrder};

use ga_observe::laws::steps;

/// At each time the last value that a waveform has of a signal is what the turn of that number
/// shows of it.
pub fn last_values()
    ensures { LastValuesAreShown }
{}

/// The words that a waveform has of a port up to a turn are those that its node posts there in
/// these turns, in order, and each as often as it is posted. If a word was pending there at the
/// start, it comes first, unless it is read in the first turn. Each chip is legal
/// (`Chip::legal`).
pub fn words_in_order()
    ensures { WordsAreInOrder }
{
    steps();
}

/// Signals with the same identifier are the same signal of the same node.
pub fn identifiers()
    ensures { IdentifiersDiffer }
{}

/// Who reads the text of a waveform by the rules of VCD, at the identifier of a signal of a node
/// that it shows and at the number of one of its turns, gets the text of the value that the turn
/// shows. The labels of the images are words.
pub fn reads_back()
    ensures { ReadsBack }
{}

/// The labels of the images of a source text are words, as `reads_back` asks for.
pub fn label_words()
    ensures { LabelsAreWords }
{}

/// A reader finds the identifier of a signal in the text of the waveform, by the name of the signal
/// and by the scope of its node.
pub fn declared_identifiers()
    ensures { IdentifiersAreDeclared }
{}
