//! Laws of the definitions. They do nothing when run.
ghost use Rattle.ga_group.specs.Laws.{PlansAgree, RunAgrees};

/// If the multiport reads name the same sides on the common steps of both runs, two runs of workers
/// by any two plans, over however many turns, leave a node alike after equally many steps: its
/// state, and what is left of its stream. So do a run of workers and tries in one thread. The chips
/// that they begin at may differ in breakpoints.
pub fn plans_agree()
    ensures plans { PlansAgree }
    ensures run { RunAgrees }
{}
