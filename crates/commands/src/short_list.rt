//! Lists of which most have a single item, which lies in the list itself.
ghost use Rattle.std.specs.Prelude.{◌≡◌, [], ◌∷◌};
ghost use Rattle.commands.specs.ShortList.{items_of};

use crate::copied::{Copied, copy_all};
use std::alloc::{AllocError, Global};
use std::marker::Model;

/// Where the items lie.
#[derive(Drop)]
enum Items<T> {
    One([T; 1]),
    Many(Vec<T>),
}

/// A list. A single item lies in the value, and takes no allocation; more of them are a `Vec`.
pub struct ShortList<T> {
    items: Items<T>,
}

impl<T: Drop> Drop for ShortList<T> {
    fn drop(self) {
        let ShortList { items: _ } = self;
    }
}

impl<T> Model for ShortList<T> {
    ghost use Rattle.std.specs.Prelude.{List};
    ghost use Rattle.std.specs.Coded.{coded_list};

    ghost Value = { List T };

    ghost coded = { coded_list T.code };

    ghost use Rattle.commands.specs.ShortList.{items_of};

    ghost view = { λ l. items_of l.items };
}

impl<T: Drop> ShortList<T> {
    /// The list of one item.
    pub fn one(item: T) -> ShortList<T>
        ensures items { result ≡ item ∷ [] }
    {
        ShortList {
            items: Items::One([item]),
        }
    }

    /// The items of a `Vec`, of which a single one is moved into the list.
    pub fn from_vec(items: Vec<T>) -> ShortList<T>
        ensures items { result ≡ items.items }
    {
        let mut items = items;
        if items.len() == 1 {
            if let Some(item) = items.pop() {
                return ShortList::one(item);
            }
        }
        ShortList {
            items: Items::Many(items),
        }
    }

    /// The items, in order.
    pub fn as_slice(&self) -> &[T]
        ensures items { result.now ≡ self.now }
    {
        match &self.items {
            Items::One(item) => item,
            Items::Many(items) => items,
        }
    }
}

impl<T: Copied> Copied for ShortList<T> {
    fn copy(&self, alloc: Global) -> Result<ShortList<T>, AllocError> {
        let items = match &self.items {
            Items::One([item]) => Items::One([item.copy(alloc)?]),
            Items::Many(items) => Items::Many(copy_all(alloc, items)?),
        };
        Ok(ShortList { items })
    }
}
