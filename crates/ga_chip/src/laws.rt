//! Laws of the definitions. They do nothing when run.
ghost use Rattle.ga_chip.specs.Ahead.{OwnCommutes, OwnTry};
ghost use Rattle.ga_chip.specs.Grow.{Growing, StreamsGo};
ghost use Rattle.ga_chip.specs.Joining.{OnePortNamesNoSide, OpenedIsOpen, RunsAreLegal, RunsJoin, TriesFeedNothing, TriesJoin};
ghost use Rattle.ga_chip.specs.Laws.{Commuting, Confluence};
ghost use Rattle.ga_chip.specs.Stuck.{Stuck};

/// Two runs of legal chips agree on their common steps, whatever the order of their tries, if on
/// these steps the multiport reads name the same sides and the streams are fed the same words. The
/// chips may differ in breakpoints. And tries of two nodes that would each be `Moved` commute.
pub fn confluence()
    ensures agree { Confluence }
    ensures commuting { Commuting }
{}

/// If the next step of a node is its own, and no breakpoint holds it, each try makes that step,
/// whatever side it names, and changes nothing but the node. The step, and a try of another node
/// with whatever outcome, come to the same in either order.
pub fn own_steps()
    ensures tries { OwnTry }
    ensures commutes { OwnCommutes }
{}

/// The nodes of a closed set are stuck. A set is closed if each of its nodes has stopped; or takes
/// a word at sides at none of which one is pending, and whose neighbours are in the set; or has
/// posted a word that is still pending, and its reader is in the set; or waits only at sides
/// without a neighbour; or waits for a stream of which no word is left. From a legal chip no run of
/// events changes such a node, or makes one of its tries `Moved`, if it feeds nothing to the
/// streams of the set's nodes: other nodes are tried in any order, and breakpoints are used
/// anywhere.
pub fn stuck()
    ensures stuck { Stuck }
{}

/// Ledgers are exact over every run of a legal chip, whatever happens to it, pieces of streams
/// among that: each cell's numbers of words written and read grow by those of the words that its
/// two nodes write and take. And the words that a node's stream had and was fed are those that the
/// node took of it and those that are left.
pub fn ledgers()
    ensures grow { Growing }
    ensures streams { StreamsGo }
{}

/// Runs one behind the other. A run of a legal chip leads to a legal chip. A run and one behind it
/// are one run: it leads to the same chip, has the moves of both, and feeds each stream what both
/// feed it; tries feed nothing. A stream that was opened is open. So a proof that makes several
/// calls joins what they promise into one run, of which the laws speak.
pub fn runs()
    ensures legal { RunsAreLegal }
    ensures joined { RunsJoin }
    ensures tries { TriesJoin }
    ensures unfed { TriesFeedNothing }
    ensures opened { OpenedIsOpen }
{}

/// A node that is never about to make a multiport read in a run names no side: for it the condition
/// of [`confluence`] holds, if this is so in both runs.
pub fn one_port()
    ensures { OnePortNamesNoSide }
{}
