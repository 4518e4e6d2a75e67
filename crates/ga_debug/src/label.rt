//! Addresses of a node, by digits or by labels.
ghost use Rattle.std.specs.Prelude.{◌≡◌};
ghost use Rattle.ga_debug.specs.Label.{address_in, label_in, memory_in};
ghost use Rattle.ga_waits.specs.Label.{images_in};

use crate::address::Address;
use crate::pieces::Pieces;
use crate::word::{address_of, decimal_of};
use ga_asm::Images;
use ga_place::{Node, Where, locate};

/// An address of memory, as an index from 000 on.
pub(crate) fn memory_in(images: Option<&Images>, node: Node, word: &str) -> Option<Address>
    ensures { result ≡ memory_in (images_in images.entry) node word.now }
{
    let address = address_in(images, node, word)?;
    match locate(address.get()) {
        Where::Ram(index) => Address::new(u16::from(index)),
        _ => None,
    }
}

/// The address that a word is: three hex digits, or else a label of the node, with a distance from
/// it behind `+` if there is one.
pub(crate) fn address_in(images: Option<&Images>, node: Node, word: &str) -> Option<Address>
    ensures { result ≡ address_in (images_in images.entry) node word.now }
{
    if let Some(address) = address_of(word.as_bytes()) {
        return Some(address);
    }
    let mut parts = Pieces::new(word, '+');
    let label = label_in(images, node, parts.next()?)?;
    match (parts.next(), parts.next()) {
        (None, _) => Address::new(label),
        (Some(distance), None) => {
            let distance = decimal_of(distance.as_bytes(), 3)?;
            let address = distance.checked_add(u32::from(label))?;
            Address::new(u16::try_from(address).ok()?)
        }
        _ => None,
    }
}

/// The address of a label of the node.
pub(crate) fn label_in(images: Option<&Images>, node: Node, label: &str) -> Option<u16>
    ensures { result ≡ label_in (images_in images.entry) node label.now }
{
    let address = images?.image_of(node)?.address_of(label)?;
    Some(u16::from(address))
}
