//! What a listing shows of the lines of its text.
ghost use Rattle.ga_list.specs.LineNames.{line_number};

use ga_source::Place;
use std::alloc::{AllocError, Global};

/// What a listing shows of the lines of its text.
pub trait LineNames {
    ghost use Rattle.std.specs.Prelude.{◌≡◌, IfOk, string_bytes};
    ghost use Rattle.ga_list.specs.LineNames as spec;
    ghost use Rattle.ga_source.specs.Token.{place_of};

    /// What is shown of the line of each place.
    ghost names: { Self → spec.LineNames };

    /// What is shown of the line of a place. Fails only when out of memory.
    fn name(&self, alloc: Global, place: Place) -> Result<String, AllocError>
        ensures { IfOk result (λ name. string_bytes name ≡ names self.now (place_of place)) };
}

/// Lines by their numbers, from 1.
#[derive(Clone, Copy)]
pub(crate) struct LineNumbers;

impl LineNames for LineNumbers {
    ghost names = { λ _. line_number };

    fn name(&self, alloc: Global, place: Place) -> Result<String, AllocError> {
        let line = place.line;
        format!(in alloc; "{line}")
    }
}
