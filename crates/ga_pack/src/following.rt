ghost use Rattle.std.specs.Prelude.{◌≡◌, ◌≤◌, length};
ghost use Rattle.ga_pack.specs.Followers as spec;

use crate::packed::Packed;
use ga_word::Op;

/// Whether an opcode uses the word behind its own, which is its follower: `@p` reads it and `!p`
/// writes it, and P advances over it (the F18A reference, DB001).
pub fn is_followed(op: Op) -> bool
    ensures { result ≡ spec.is_followed op }
{
    matches!(op, Op::FetchP | Op::StoreP)
}

/// How many of the words behind a word are its followers: one for each `@p` and `!p` before the
/// first opcode that ends the word (`;`, `ex` and what takes a destination), if there is one. It
/// allocates nothing.
///
/// Behind the end of a word no slot is run (the F18A reference, DB001). That a word that `@p` or
/// `!p` uses counts as a follower is this project's profile.
pub fn followers(packed: &Packed) -> u8
    ensures count { result ≡ spec.followers packed.now.ops.items }
    ensures most { result ≤ 4 }
{
    followers_of(packed.ops.as_slice()) as u8
}

/// The same for the opcodes of a word, without its destination.
pub fn followers_of(ops: &[Op]) -> usize
    ensures count { result ≡ spec.followers ops.now }
    ensures most { result ≤ length ops.now }
{
    let mut count = 0;
    for op in ops {
        if op.ends_word() {
            return count;
        }
        if is_followed(*op) {
            count += 1;
        }
    }
    count
}
