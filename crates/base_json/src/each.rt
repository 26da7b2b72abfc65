//! Lists whose items are read one by one.
ghost use Rattle.std.specs.Prelude.{◌≡◌, List, All, map, option_map, Some, IfOk};
ghost use Rattle.serde_json.specs.Data.{Data, array};
ghost use Rattle.serde_json.specs.View.{items_of};

use json_profile::Json;
use std::alloc::{AllocError, Global};

/// An item of a list that a base has.
pub(crate) trait ListItem: Drop {
    /// What it is in a base.
    ghost Shown: { Type 0 };

    /// What it shows.
    ghost shown: { Self → Shown };

    /// The value that is written for it.
    ghost data_of: { Shown → Data };

    /// An item of a base keeps these limits.
    ghost is_within: { Shown → Type 0 };

    /// The item that a value is, if it may be one.
    fn read_item(alloc: Global, value: Json) -> Result<Option<Self>, AllocError>
        ensures { IfOk result (λ found. (it : Shown) → is_within it → value ≡ data_of it
            → option_map shown found ≡ Some it) };
}

/// The items that a list is of, if each may be one.
pub(crate) fn read_each<T: ListItem>(
    alloc: Global,
    value: Json,
) -> Result<Option<Vec<T>>, AllocError>
    ensures { IfOk result (λ found. (items : List T.Shown) → All T.is_within items
        → value ≡ array (items_of (map T.data_of items))
        → option_map (λ list. map T.shown list.items) found ≡ Some items) }
{
    let Some(values) = value.into_list(alloc)? else {
        return Ok(None);
    };
    read_items(alloc, values)
}

/// The items that the values are, if each may be one.
fn read_items<T: ListItem>(alloc: Global, values: Vec<Json>) -> Result<Option<Vec<T>>, AllocError>
    ensures { IfOk result (λ found. (items : List T.Shown) → All T.is_within items
        → values.items ≡ map T.data_of items
        → option_map (λ list. map T.shown list.items) found ≡ Some items) }
{
    let mut found = Vec::with_capacity(alloc, values.len())?;
    for value in values {
        let Some(item) = T::read_item(alloc, value)? else {
            return Ok(None);
        };
        found.push(item)?;
    }
    Ok(Some(found))
}
