use ga_word::Word18;
use std::alloc::{AllocError, Global};

/// Where a stream is cut.
#[derive(Clone, Copy)]
pub enum Cut {
    /// Behind this many words.
    Behind(usize),
    /// Behind each word.
    Everywhere,
    /// Behind about one word of eight, at random, from this seed.
    Chance(u64),
}

impl Cut {
    /// Whether the stream is cut behind this word, and how it goes on.
    fn at(self, place: usize) -> (bool, Cut) {
        match self {
            Cut::Behind(only) => (place == only, self),
            Cut::Everywhere => (true, self),
            Cut::Chance(seed) => {
                let next = seed
                    .wrapping_mul(0x5851_F42D_4C95_7F2D)
                    .wrapping_add(0x1405_7B7E_F767_814F);
                (next >> 61 == 0, Cut::Chance(next))
            }
        }
    }

    /// The pieces of a stream that is cut so, none of which is empty.
    pub fn pieces(self, alloc: Global, words: &[Word18]) -> Result<Vec<&[Word18]>, AllocError> {
        let mut pieces = Vec::new(alloc);
        let mut cut = self;
        let mut begin = 0;
        for place in 1..=words.len() {
            let (is_cut, next) = cut.at(place);
            cut = next;
            if is_cut || place == words.len() {
                pieces.push(words.get(begin..place).unwrap_or_default())?;
                begin = place;
            }
        }
        Ok(pieces)
    }
}
