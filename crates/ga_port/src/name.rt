use std::marker::Brand;

/// Gives a step, which sees only a word of the table, the try that it enters.
pub(crate) trait Named {
    ghost use Rattle.ga_chip.specs.declared.outcome.Try.{Try};

    ghost what: { Try };
}

// No step has this try: a call gives the one of its `Brand`.
impl Named for Brand {
    ghost use Rattle.ga_place.specs.declared.side.Side.TheVariants.{Right};

    ghost what = { record { node = 0; side = Right } };
}

/// The nodes that go to a new seat.
pub(crate) trait Chosen {
    ghost use Rattle.std.specs.Prelude.{ℕ, List};

    ghost names: { List ℕ };
}

impl Chosen for Brand {
    ghost use Rattle.std.specs.Prelude.{[]};

    ghost names = { [] };
}
