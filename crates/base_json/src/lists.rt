//! Lists of which one item is read behind another, so that no more than an item is in memory as JSON.
ghost use Rattle.std.specs.Prelude.{◌≡◌, ◌++◌, ◌<◌, ℕ, List, All, Ok, Some, IfOk, IfSome, MatchOption, length, map, option_map};
ghost use Rattle.serde_json.specs.Data.{Data, array};
ghost use Rattle.serde_json.specs.View.{items_of};
ghost use Rattle.serde_json.specs.Written.{comma_if, compact_text};
ghost use Rattle.document_json.specs.Text.{json_of};
ghost use Rattle.base_json.specs.Pieces.{IsPiece};

use crate::each::ListItem;
use crate::scan::split_value;
use crate::text::after;
use document_json::{Fault, read_json};
use json_profile::Json;
use std::alloc::{AllocError, Global};

/// The items of the list that a text begins with, if each may be one, and what is behind the list.
pub(crate) fn read_list<T: ListItem>(
    alloc: Global,
    text: &[u8],
) -> Result<Option<(Vec<T>, &[u8])>, AllocError>
    ensures found { (items : List T.Shown) (rest : List ℕ) → All (λ it. T.is_within it × IsPiece (T.data_of it)) items
        → text.now ≡ compact_text (array (items_of (map T.data_of items))) ++ rest
        → IfOk result (λ found. MatchOption found ⊥ (λ f. (map T.shown f.0.items ≡ items) × (f.1.now ≡ rest))) }
{
    let mut items = Vec::new(alloc);
    let Some(mut left) = after(text, "[") else {
        return Ok(None);
    };
    let mut later = false;
    loop {
        if let Some(rest) = after(left, "]") {
            return Ok(Some((items, rest)));
        }
        let Some((item, rest)) = read_next::<T>(alloc, left, later)? else {
            return Ok(None);
        };
        items.push(item)?;
        left = rest;
        later = true;
    }
}

/// The item that a text begins with, behind a comma where another one came before, and what is behind it.
fn read_next<T: ListItem>(
    alloc: Global,
    text: &[u8],
    later: bool,
) -> Result<Option<(T, &[u8])>, AllocError>
    ensures found { (it : T.Shown) (rest : List ℕ) → T.is_within it → IsPiece (T.data_of it)
        → text.now ≡ comma_if later ++ (compact_text (T.data_of it) ++ rest)
        → IfOk result (λ found. MatchOption found ⊥ (λ f. (T.shown f.0 ≡ it) × (f.1.now ≡ rest))) }
    ensures shorter { IfOk result (λ found. IfSome found (λ f. length f.1.now < length text.now)) }
{
    let Some(text) = after_comma(text, later) else {
        return Ok(None);
    };
    let Some((piece, rest)) = split_value(text) else {
        return Ok(None);
    };
    let Some(value) = value_of(alloc, piece)? else {
        return Ok(None);
    };
    match T::read_item(alloc, value)? {
        Some(item) => Ok(Some((item, rest))),
        None => Ok(None),
    }
}

/// What is behind a comma, where another item came before, if it is there.
fn after_comma(text: &[u8], later: bool) -> Option<&[u8]>
    ensures found { (rest : List ℕ) → text.now ≡ comma_if later ++ rest → option_map (λ r. r.now) result ≡ Some rest }
    ensures is { IfSome result (λ r. text.now ≡ comma_if later ++ r.now) }
{
    if later {
        return after(text, ",");
    }
    Some(text)
}

/// The value of a piece, where it may be one.
fn value_of(alloc: Global, piece: &[u8]) -> Result<Option<Json>, AllocError>
    ensures { (value : Data) → json_of piece.now ≡ Ok value → IfOk result (λ found. found ≡ Some value) }
{
    match read_json(alloc, piece) {
        Ok(value) => Ok(Some(value)),
        Err(Fault::Refused(_)) => Ok(None),
        Err(Fault::Memory) => Err(AllocError),
    }
}
