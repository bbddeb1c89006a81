//! The items of a FETCH.

ghost use Rattle.std.specs.Prelude.{◌≡◌};
ghost use Rattle.imap_grammar.specs.ItemData.{items_data_of};

use crate::response::Item;
use std::marker::Model;

/// The items of a FETCH in their order. Contracts see the list of their data.
#[derive(Drop)]
pub struct Items<'a> {
    items: Vec<Item<'a>>,
}

impl<'a> Model for Items<'a> {
    ghost use Rattle.std.specs.Prelude.{List};
    ghost use Rattle.imap_grammar.specs.ItemData.{ItemData, items_data_of};

    ghost Value = { List ItemData };

    ghost view = { λ s. items_data_of s.items.items };
}

impl<'a> Items<'a> {
    pub fn from_vec(items: Vec<Item<'a>>) -> Self
        ensures { result ≡ items_data_of items.entry.items }
    {
        Items { items }
    }

    pub fn as_slice(&self) -> &[Item<'a>]
        ensures { items_data_of result.now ≡ self.now }
    {
        &self.items
    }
}
