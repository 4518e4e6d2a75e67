//! The name that is nearest to a word.
use std::alloc::{AllocError, Global};
use std::marker::Model;
use strsim::osa_distance;

/// The nearest to a word among the names offered so far: the first one to which the fewest edits
/// lead. An edit adds, drops or replaces a letter, or swaps two neighbours. A third of the word may
/// be edited, by bytes, or one letter, but not all of it; no name is near a word of over 24 bytes.
/// (Profile.)
#[derive(Drop)]
pub struct Nearest<'a> {
    word: &'a str,
    /// Fewer edits lead to a nearer name.
    below: usize,
    name: Option<&'a str>,
}

impl<'a> Model for Nearest<'a> {
    ghost use Rattle.std.specs.Prelude.{⊤, option_map};
    ghost use Rattle.ga_nearest.specs.Nearest.{Found};

    ghost Value = { Found };

    ghost view = { λ nearest. record {
      word = nearest.word.now;
      below = nearest.below;
      name = option_map (λ name. name.now) nearest.name;
    } };

    ghost invariant = { λ nearest. ⊤ };
}

impl<'a> Nearest<'a> {
    ghost use Rattle.std.specs.Prelude.{◌≡◌, IfOk, OnErr, OnOk, option_map};
    ghost use Rattle.ga_nearest.specs.Nearest.{nearer, nothing_near};

    /// No name was offered yet.
    pub fn to(word: &'a str) -> Self
        ensures { result ≡ nothing_near word.now }
    {
        let below = if word.len() > 24 {
            0
        } else {
            word.len().min(word.len().max(3) / 3 + 1)
        };
        Nearest {
            word,
            below,
            name: None,
        }
    }

    /// Offers one more name. Fails only when out of memory; then it wasn't offered.
    pub fn offer(&mut self, alloc: Global, name: &'a str) -> Result<(), AllocError>
        ensures offered { OnOk result (self.new ≡ nearer self.old name.now) }
        ensures same { OnErr result (self.new ≡ self.old) }
    {
        if self.below == 0 {
            return Ok(());
        }
        let edits = osa_distance(alloc, self.word, name)?;
        if edits < self.below {
            self.below = edits;
            self.name = Some(name);
        }
        Ok(())
    }

    /// The nearest name, if one is near.
    pub fn name(&self) -> Option<&'a str>
        ensures { option_map (λ name. name.now) result ≡ self.now.name }
    {
        self.name
    }
}
