ghost use Rattle.std.specs.Prelude.{◌≡◌, map};
ghost use Rattle.ga_pack.specs.Model.Layout.{names_in};
ghost use Rattle.ga_source.specs.Item.{item_of};

use crate::item::Item;
use crate::name::Name;

/// The items of a node, and the names of its labels, each in the text's order.
#[derive(Drop)]
pub struct Section {
    pub items: Vec<Item>,
    pub labels: Vec<Name>,
    // The labels are those of the items.
    ghost labels_of_items: { map (λ name. name.bytes) labels.items
        ≡ names_in (map item_of items.items) },
}
