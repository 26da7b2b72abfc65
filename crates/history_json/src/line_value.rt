//! What a line has as a JSON value, and lists of it.
ghost use Rattle.std.specs.Prelude.{◌≡◌, ◌++◌, List, All, map, option_map, Some, IfOk, IfSome, OnOk, string_bytes};
ghost use Rattle.serde_json.specs.Data.{Data, array};
ghost use Rattle.serde_json.specs.View.{items_of};
ghost use Rattle.serde_json.specs.Written.{compact_text};

use document_json::put_comma;
use json_profile::Json;
use std::alloc::{AllocError, Global};

/// What a line has as a JSON value.
pub trait LineValue: Drop {
    /// The value that is written for it.
    ghost data_of: { Self → Data };

    /// What is read keeps these limits.
    ghost is_within: { Self → Type 0 };

    /// Writes the text of the value.
    fn put(&self, text: &mut String, alloc: Global) -> Result<(), AllocError>
        ensures { OnOk result (string_bytes text.new ≡ string_bytes text.old ++ compact_text (data_of self.now)) };

    /// What the value says, if it says anything within the limits.
    fn read(alloc: Global, value: Json) -> Result<Option<Self>, AllocError>
        ensures within { IfOk result (λ found. IfSome found is_within) }
        ensures found { IfOk result (λ found. (it : Self) → is_within it → value ≡ data_of it → found ≡ Some it) };
}

/// Writes a list of values.
pub fn put_list<T: LineValue>(
    text: &mut String,
    alloc: Global,
    items: &[T],
) -> Result<(), AllocError>
    ensures { OnOk result (string_bytes text.new
        ≡ string_bytes text.old ++ compact_text (array (items_of (map T.data_of items.now)))) }
{
    text.push_str("[")?;
    let mut later = false;
    for item in items {
        put_comma(text, later)?;
        item.put(text, alloc)?;
        later = true;
    }
    text.push_str("]")
}

/// What each of the values says, if all say something.
fn read_items<T: LineValue>(alloc: Global, values: Vec<Json>) -> Result<Option<Vec<T>>, AllocError>
    ensures within { IfOk result (λ found. IfSome found (λ list. All T.is_within list.items)) }
    ensures found { IfOk result (λ found. (items : List T) → All T.is_within items → values.items ≡ map T.data_of items
        → option_map (λ list. list.items) found ≡ Some items) }
{
    let mut found = Vec::with_capacity(alloc, values.len())?;
    for value in values {
        let Some(item) = T::read(alloc, value)? else {
            return Ok(None);
        };
        found.push(item)?;
    }
    Ok(Some(found))
}

/// What a list of values says, if it says something.
pub fn read_list<T: LineValue>(alloc: Global, value: Json) -> Result<Option<Vec<T>>, AllocError>
    ensures within { IfOk result (λ found. IfSome found (λ list. All T.is_within list.items)) }
    ensures found { IfOk result (λ found. (items : List T) → All T.is_within items → value ≡ array (items_of (map T.data_of items))
        → option_map (λ list. list.items) found ≡ Some items) }
{
    let Some(values) = value.into_list(alloc)? else {
        return Ok(None);
    };
    read_items(alloc, values)
}
