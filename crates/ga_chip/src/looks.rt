ghost use Rattle.std.specs.Prelude.{◌≡◌, [], ◌∷◌};
ghost use Rattle.ga_chip.specs.Asks.{look_at};

use ga_place::{CellId, Side};
use std::marker::Model;

/// The cells at which the tries of a node look that only asks to take words or for nothing,
/// whatever side a try names: for each side the cell whose word the try asks to take, or none if it
/// asks for nothing. A contract sees them as a list, in the order right, down, left, up.
#[derive(Clone, Copy)]
pub struct Looks {
    by_side: [Option<CellId>; 4],
}

impl Model for Looks {
    ghost use Rattle.std.specs.Prelude.{ℕ, List, Option};

    ghost Value = { List (Option ℕ) };

    ghost view = { λ looks. looks.by_side };

    ghost inverse = { λ looks. record { by_side = looks } };
}

impl Looks {
    /// The looks of tries that name right, down, left and up.
    pub(crate) fn new(
        right: Option<CellId>,
        down: Option<CellId>,
        left: Option<CellId>,
        up: Option<CellId>,
    ) -> Self
        ensures { result ≡ right ∷ down ∷ left ∷ up ∷ [] }
    {
        Looks {
            by_side: [right, down, left, up],
        }
    }

    /// The cell at which a try looks that names a side, if it looks at one.
    #[inline(always)]
    pub fn at(&self, side: Side) -> Option<CellId>
        ensures { result ≡ look_at self.now side }
    {
        self.by_side[side as usize]
    }
}
