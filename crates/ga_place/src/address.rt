ghost use Rattle.std.specs.Prelude.{◌≡◌, ◌+◌, ◌/◌, ◌^◌, ◌<◌, bit_xor};
ghost use Rattle.ga_place.specs.Address.{advance_of, idle_address_of, io_where, port_address_of, ports_in, where_is};
ghost use Rattle.ga_place.specs.Side.{bits_of, side_bit, sides_bits, sides_by_edge, sides_with};

use crate::{Node, Side, Sides};
use bitflags::Flags;

/// What an address of a node reaches, as `locate` returns it.
#[derive(Clone, Copy, Debug, PartialEq, Eq)]
pub enum Where {
    /// A word of RAM, by its index from 0 to 63.
    Ram(u8),
    /// A word of ROM, by its index from 0 to 63: index 0 is at address 080.
    Rom(u8),
    /// The ports of these sides, at least one.
    Ports(Sides),
    /// The register `io`.
    Io,
    /// Nothing: an I/O address that is neither a port nor `io`.
    Unmapped,
}

/// A port address is the exclusive or of this and the bits of its sides.
const PORT_BASE: u16 = 0x155;

/// The address of the port at a side of a node, nine bits: 1D5 right, 115 down, 175 left, 145 up
/// (F18A reference DB001).
pub fn port_address(side: Side) -> u16
    ensures value { result ≡ port_address_of side }
    ensures bound { result < 2 ^ 9 }
    ensures located { where_is result ≡ Where.Ports (sides_with (side_bit side)) }
{
    match side {
        Side::Right => 0x1D5,
        Side::Down => 0x115,
        Side::Left => 0x175,
        Side::Up => 0x145,
    }
}

/// The address at which the node waits when it is idle, nine bits: the ports of all the sides that
/// it has, as 1A5 if it has all four. Rows 0 and 7 lack up, and columns 0 and 17 lack left (chip
/// reference DB002).
pub fn idle_address(node: Node) -> u16
    ensures value { result ≡ idle_address_of node }
    ensures bound { result < 2 ^ 9 }
    ensures edges { result ≡ bit_xor 0x155 (sides_by_edge node) }
    ensures located { where_is result ≡ Where.Ports (sides_with (sides_bits node)) }
{
    PORT_BASE ^ u16::from(existing_sides(node).bits())
}

fn existing_sides(node: Node) -> Sides
    ensures value { bits_of result ≡ sides_bits node }
    ensures edges { bits_of result ≡ sides_by_edge node }
{
    let row = node.row();
    let column = node.column();
    let mut sides = Sides::RIGHT.union(Sides::DOWN);
    if column != 0 && column != 17 {
        sides.insert(Sides::LEFT);
    }
    if row != 0 && row != 7 {
        sides.insert(Sides::UP);
    }
    sides
}

/// The address after an address, which advances in its low seven bits: 07F goes to 000, and 0FF to
/// 080. The bits from 7 up are kept, and an address with bit 8 set stays as it is: 175 goes to 175
/// (F18A reference DB001).
pub fn advance(address: u32) -> u32
    ensures value { result ≡ advance_of address }
    ensures kept { result / 0x80 ≡ address / 0x80 }
{
    if address & 0x100 != 0 {
        return address;
    }
    let low = address & 0x7F;
    address - low + ((low + 1) & 0x7F)
}

/// What an address reaches, by its low nine bits: RAM from 000 and again from 040, ROM from 080 and
/// again from 0C0, and I/O from 100 to 1FF (F18A reference DB001).
///
/// In the I/O range, a port address is 155 with at least one of the bits 4 to 7 turned over, one
/// for each side, and 15D is `io`. All else there is unmapped (this project's profile).
pub fn locate(address: u16) -> Where
    ensures { result ≡ where_is address }
{
    let low = address & 0x1FF;
    if low < 0x80 {
        Where::Ram((low & 0x3F) as u8)
    } else if low < 0x100 {
        Where::Rom((low & 0x3F) as u8)
    } else {
        locate_io((low - 0x100) as u8)
    }
}

/// The sides whose ports an address reaches, or `None` if it reaches none, as by [`locate`].
#[inline(always)]
pub fn ports_at(address: u16) -> Option<Sides>
    ensures { result ≡ ports_in (where_is address) }
{
    let low = address & 0x1FF;
    if low < 0x100 {
        return None;
    }
    match locate_io((low - 0x100) as u8) {
        Where::Ports(sides) => Some(sides),
        _ => None,
    }
}

#[inline(always)]
fn locate_io(low: u8) -> Where
    ensures { result ≡ io_where (bit_xor (0x100 + low) 0x155) }
{
    let difference = low ^ 0x55;
    if difference == 0x08 {
        Where::Io
    } else if difference != 0 && difference & 0x0F == 0 {
        Where::Ports(Sides::from_bits_retain(difference))
    } else {
        Where::Unmapped
    }
}
