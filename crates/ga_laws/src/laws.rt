//! The laws. They do nothing when run.
ghost use Rattle.ga_chip.specs.Laws.{Confluence};
ghost use Rattle.ga_group.specs.Laws.{PlansAgree, RunAgrees};
ghost use Rattle.ga_laws.specs.Laws.{BootsHold, StepsAreRows, WordsGiveBack};
ghost use Rattle.ga_laws.specs.Rest.{RestLasts, RunRests};
ghost use Rattle.ga_laws.specs.Stacks.{StepKeepsWords, WordsStay};

/// For every accepted source and every list of tries, including those of runs of workers: each step
/// of each node is its row of the table; disassembling the assembled words gives back the
/// instructions; once the load part was taken whole, each node with an image holds it until it
/// starts; and two runs, fed the same words, whose multiport reads take from the same sides leave a
/// node alike after equally many steps.
///
/// It is about the definitions of these calls' answers: `attempt` and `run` of `ga_chip`; `parse`
/// of `ga_source`, `assemble` of `ga_asm` and `items` of `ga_disasm`; `Route::new` and `boot`, and
/// `Tree::new` and `boot_tree`, of `ga_path`, with `give_stream`, or `open_stream` and `feed`, of a
/// chip after reset, or `booted_tree` of `ga_debug`; `run_workers` of `ga_group`. The images are
/// those of a text, as `assemble_text` returns them.
pub fn headline()
    ensures steps { StepsAreRows }
    ensures instructions { WordsGiveBack }
    ensures boot { BootsHold }
    ensures confluence { Confluence }
    ensures plans { PlansAgree }
    ensures run { RunAgrees }
{}

/// The words that a node pushes stay in its stacks as long as there is room for them, ten in the
/// data stack and nine in the return stack. In a step, each word below the top one stays at its
/// height, if there is room for the words that were pushed and not yet popped, before the step and
/// behind it. In a run, a word stays at its height as long as there are words above it, if no push
/// was found for which there was no room.
///
/// It is about the counts of `depths` and `StackDepths` of `ga_trace`.
pub fn stacks()
    ensures step { StepKeepsWords }
    ensures run { WordsStay }
{}

/// A run of turns that is said to rest leads to a chip at rest, at which only nodes that spin can
/// move, if each node's count of steps has room for a step in each turn. And a chip at rest stays
/// so whatever nodes are tried, in whatever order: the same nodes spin, the others are as they
/// were, and so is each cell.
///
/// It is about the answer of `run` of `ga_trace`.
pub fn rest()
    ensures run { RunRests }
    ensures lasts { RestLasts }
{}
