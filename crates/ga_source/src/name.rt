//! The names of labels.
ghost use Rattle.std.specs.Prelude.{◌≡◌, ◌↔◌, ◌≤◌, IfSome, IsSome, length, nat_eq};
ghost use Rattle.std.specs.Cmp.{on_equiv, on_per, partial_equiv_from_equiv};
ghost use Rattle.std.specs.Cmp.Lexicographic.{nat_list_eq_equiv, pointwise};
ghost use Rattle.std.specs.Cmp.Rules.{hashing};
ghost use Rattle.std.specs.Hash as fed;
ghost use Rattle.std.proofs.Common.{rules};

use std::hash::{Hash, Hasher};
use std::marker::Model;
use std::str;

/// The most bytes that a name has.
const MOST: usize = 16;

/// The name of a label, in place: at most sixteen bytes. Names of the language are one to sixteen
/// letters, digits and `_`.
#[derive(Clone, Copy)]
pub struct Name {
    cells: [u8; MOST],
    len: u8,
}

impl Model for Name {
    ghost use Rattle.std.specs.Prelude.{◌≡◌, ◌≤◌, ◌++◌, length, take, drop, IsUtf8};
    ghost use Rattle.std.proofs.Common.{arith, take-append-drop, length-take-le};
    ghost use Rattle.ga_source.specs.Name.{NameText};

    ghost Value = { NameText };

    ghost view = { λ n. record { bytes = take n.len n.cells; spare = drop n.len n.cells } };

    ghost invariant = { λ n. (n.len ≤ 16) × (length n.cells ≡ 16)
        × ∥ IsUtf8 (take n.len n.cells) ∥₁ };

    ghost inverse = { λ t. record { cells = t.bytes ++ t.spare; len = length t.bytes } };

    ghost inverse_ok = { λ n h i. record {
      cells = take-append-drop n.len n.cells i;
      len = length-take-le n.len n.cells (omega (arith, h.0, h.1)) i;
    } };
}

impl Name {
    /// The name with this text, or `None` if it has more than sixteen bytes.
    pub fn new(text: &str) -> Option<Self>
        ensures variant { IsSome result ↔ (length text.now ≤ 16) }
        ensures some { IfSome result (λ name. name.bytes ≡ text.now) }
    {
        let bytes = text.as_bytes();
        if bytes.len() > MOST {
            return None;
        }
        let mut cells = [0; MOST];
        cells[..bytes.len()].copy_from_slice(bytes);
        let len = bytes.len() as u8;
        Some(Name { cells, len })
    }

    /// The text of the name.
    pub fn as_str(&self) -> &str
        ensures { result.now ≡ self.now.bytes }
    {
        unsafe { str::from_utf8_unchecked(&self.cells[..usize::from(self.len)]) }
    }
}

impl PartialEq for Name {
    ghost eq = { λ one other. pointwise nat_eq one.bytes other.bytes };

    ghost laws = { on_per (λ name. name.bytes) (partial_equiv_from_equiv nat_list_eq_equiv) };

    fn eq(&self, other: &Name) -> bool {
        self.as_str() == other.as_str()
    }
}

impl Eq for Name {
    ghost laws = { on_equiv (λ name. name.bytes) nat_list_eq_equiv };
}

impl Hash for Name {
    ghost hash_input = { λ name. fed.str name.bytes };

    ghost respects_eq = { Prim.search (hashing, rules) };

    fn hash<H: Hasher>(&self, state: &mut H) {
        self.as_str().hash(state);
    }
}
