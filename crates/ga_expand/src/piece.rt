//! What tokens are written as, and where.
ghost use Rattle.std.specs.Prelude.{◌≡◌, true};
ghost use Rattle.ga_expand.specs.inner.Plain.{is_token};

use ga_source::Place;

/// A token's bytes, and the place where it was written.
#[derive(Clone, Copy)]
pub(crate) struct Piece<'a> {
    pub(crate) text: &'a [u8],
    pub(crate) place: Place,
    ghost token: { is_token text.now ≡ true },
}
