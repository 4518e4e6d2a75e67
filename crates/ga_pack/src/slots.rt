ghost use Rattle.std.specs.Prelude.{◌≡◌};
ghost use Rattle.ga_pack.specs.Slots as spec;

use ga_word::Op;

/// Whether a slot, from 0, has room for an opcode that takes no destination: slots 0 to 2 for each,
/// and slot 3 for those whose lower two bits are 0 (the F18A reference, DB001).
pub fn op_fits(slot: usize, op: Op) -> bool
    ensures { result ≡ spec.op_fits slot op }
{
    slot < 3 || slot == 3 && op.fits_slot3()
}

/// The number below which a destination behind a slot, from 0, lies: it has 10 bits behind slot 0,
/// 8 bits behind slot 1 and 3 bits behind slot 2 (the F18A reference, DB001).
pub fn dest_bound(slot: usize) -> u16
    ensures { result ≡ spec.dest_bound slot }
{
    match slot {
        0 => 0x400,
        1 => 0x100,
        _ => 8,
    }
}

/// The exclusive bound of the spare bits of a word with a destination behind this slot, from 0:
/// three bits are spare behind slot 0, else none (the F18A reference, DB001).
pub fn spare_bound(slot: usize) -> u8
    ensures { result ≡ spec.spare_bound slot }
{
    if slot == 0 { 8 } else { 1 }
}
