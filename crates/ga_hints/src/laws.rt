//! A law of the definitions. It does nothing when run.
ghost use Rattle.ga_hints.specs.Laws.{SizesOfImages};

/// The size of items that have an image is that of the image: its words, and how many of them are
/// code.
pub fn sizes_of_images()
    ensures { SizesOfImages }
{}
