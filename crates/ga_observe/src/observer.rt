use crate::step::Step;

/// What watches a run: the calls of this crate hand it each step, in the order of the run.
pub trait Observer {
    ghost use Rattle.std.specs.Prelude.{[], ◌∷◌, List};
    ghost use Rattle.ga_observe.specs.Seen.{Sees};
    ghost use Rattle.ga_observe.specs.declared.step.Step.{Step};

    /// The second observer is as it should be if it began as the first one, and has then seen these
    /// steps, in this order, and no others.
    ghost has_seen: { Self → Self → List Step → Type 0 };

    /// The node has made this step, the next one of the run.
    fn see(&mut self, step: Step)
        ensures { Sees has_seen self.old self.new (step ∷ []) };
}
