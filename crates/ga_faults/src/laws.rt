//! A law of the definitions. It does nothing when run.
ghost use Rattle.ga_faults.specs.Laws.{PartsKeepPlaces};

/// The tokens of a part are those that the head and the section have in the text, at the same
/// places. So a fault of a part is at the place that its token has in the text.
pub fn parts_keep_places()
    ensures { PartsKeepPlaces }
{}
