//! A law of the definitions. It does nothing when run.
ghost use Rattle.ga_list.specs.Laws.{NamesAreListed};

/// If a word of a text was laid with a name as its destination, in brackets or outside, its line in
/// the listing has a label as its destination: the first one with that name's address.
pub fn names_are_listed()
    ensures { NamesAreListed }
{}
