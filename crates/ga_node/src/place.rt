ghost use Rattle.std.specs.Prelude.{◌≡◌, ◌<◌, Some};
ghost use Rattle.ga_node.specs.Line.{place_text};
ghost use Rattle.ga_node.specs.inner.Work.{number_of};

use std::fmt;

/// The place of a node between two steps: before a slot of the word in execution or before a fetch;
/// or, while it loads itself, before a word of a frame's header or in its body.
// In this order each slot and then the fetch follows the one before, so that going on is an
// addition.
#[derive(Clone, Copy, Debug, PartialEq, Eq)]
pub enum Place {
    Slot0,
    Slot1,
    Slot2,
    Slot3,
    Fetch,
    Completion,
    Transfer,
    Count,
    Body,
}

impl Place {
    /// The number of the place in this order, counted from 0.
    #[inline(always)]
    pub(crate) fn index(self) -> usize
        ensures value { result ≡ number_of self }
        ensures bound { result < 9 }
    {
        self as usize
    }
}

impl fmt::Display for Place {
    ghost output = { λ place. Some (place_text place) };

    fn fmt<W: fmt::Write>(&self, f: &mut fmt::Formatter<W>) -> fmt::Result {
        f.write_str(match self {
            Place::Fetch => "fetch",
            Place::Slot0 => "slot0",
            Place::Slot1 => "slot1",
            Place::Slot2 => "slot2",
            Place::Slot3 => "slot3",
            Place::Completion => "completion",
            Place::Transfer => "transfer",
            Place::Count => "count",
            Place::Body => "body",
        })
    }
}
