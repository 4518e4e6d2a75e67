ghost use Rattle.std.specs.Prelude.{All};
ghost use Rattle.ga_asm.specs.Image.{IsLoadable};

use ga_asm::Images;

/// Each image has 1 to 64 words, and its entry is at most 64, as the laws of booting require. It
/// looks at each image, allocates nothing, and does nothing else when run.
pub fn images_fit(images: &Images)
    ensures { All (λ entry. IsLoadable entry.1) images.now }
{
    for (_, image) in images.images() {
        // the clauses of both calls give the bounds
        let _words = image.words();
        let _entry = image.entry();
    }
}
