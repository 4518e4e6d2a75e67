//! The word of the F18A: the opcodes that it packs, with the destination of the last one.
#![tactic(auto)]

mod decoding;
mod encoding;
mod error_kind;
mod following;
mod keys;
mod packed;
mod slots;

pub use decoding::{decode, op_in_slot0, op_in_slot1, op_in_slot2, op_in_slot3};
pub use encoding::{PackError, encode};
pub use error_kind::{AsmErrorKind, SourceErrorKind};
pub use following::{followers, followers_of, is_followed};
pub use packed::Packed;
pub use slots::{dest_bound, op_fits, spare_bound};
