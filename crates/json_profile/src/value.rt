//! A JSON value of the profile.
ghost use Rattle.std.specs.Prelude.{◌≡◌, ◌≤◌, ◌<◌, ◌≢◌, ◌↔◌, option_map, option_and_then, true, false, Some, None, IfOk, string_bytes};
ghost use Rattle.serde_json.specs.Data.{Data, Members, array, object, depth as nesting};
ghost use Rattle.serde_json.specs.Find.{as_object, as_array, as_str as str_of, as_bool as bool_of, as_number, as_i64 as i64_of};
ghost use Rattle.serde_json.specs.Read.{read as read_text};
ghost use Rattle.serde_json.specs.View.{view, items_of, items_view};
ghost use Rattle.serde_json.specs.Written.{compact_text};
ghost use Rattle.model.specs.Profile.{IsTextOf, is_whole as every_number_whole, is_ordered, without_specials, max_nesting, max_body_nesting};
ghost use Rattle.json_profile.specs.Profiled.{IsProfiled};
ghost use Rattle.json_profile.specs.declared.fault.JsonFault.TheVariants.{Malformed, Number, Depth, NotAnObject};

use crate::body::Body;
use crate::fault::JsonFault;
use crate::measure::{is_whole, nests_within};
use crate::members::copy_plain;
use crate::object::Object;
use serde_json::{Category, Value};
use std::alloc::{AllocError, Global};
use std::marker::Model;

/// The most arrays and objects round one another in a value.
pub const MAX_NESTING: u8 = 72;

/// A JSON value whose numbers are whole numbers of `i64`, and which nests at most
/// [`MAX_NESTING`] deep.
pub struct Json {
    value: Value,
}

impl Drop for Json {
    fn drop(self) {
        let Json { value: _ } = self;
    }
}

impl Model for Json {
    ghost use Rattle.serde_json.specs.Data.{Data};
    ghost use Rattle.serde_json.specs.View.{view as data_of};
    ghost use Rattle.model.specs.JsonCode.{coded_data};
    ghost use Rattle.json_profile.specs.Profiled.{IsProfiled};

    ghost Value = { Data };

    ghost coded = { coded_data };

    ghost view = { λ j. data_of j.value };

    ghost invariant = { λ j. IsProfiled (data_of j.value) };
}

/// Reads a JSON text that nests at most `deepest` deep. A text that is not JSON is `Malformed`, then
/// a number that is not whole `Number`, then one level too many `Depth`.
#[tactic(auto, using(crate::proofs::Order::read_in_order, crate::proofs::Texts::has_utf8_view))]
pub fn read(alloc: Global, bytes: &[u8], deepest: u8) -> Result<Json, JsonFault>
    requires { deepest ≤ max_nesting }
    ensures value { IfOk result (λ d. IsTextOf d bytes.now × (every_number_whole d ≡ true) × (nesting d ≤ deepest)) }
    ensures malformed { result ≡ Err Malformed → (d : Data) → ¬ IsTextOf d bytes.now }
    ensures number { result ≡ Err Number
        → (d : Data) × (IsTextOf d bytes.now × (every_number_whole d ≡ false)) }
    ensures depth { result ≡ Err Depth
        → (d : Data) × (IsTextOf d bytes.now × (every_number_whole d ≡ true) × (deepest < nesting d)) }
    ensures of_text { result ≢ Err NotAnObject }
{
    let value = match Value::from_slice(alloc, bytes) {
        Ok(value) => value,
        Err(error) => {
            return Err(match error.classify() {
                Category::Memory => JsonFault::Memory,
                _ => JsonFault::Malformed,
            });
        }
    };
    if !is_whole(&value) {
        return Err(JsonFault::Number);
    }
    if !nests_within(&value, deepest) {
        return Err(JsonFault::Depth);
    }
    Ok(Json { value })
}

impl Json {
    pub(crate) fn of_value(value: Value) -> Json
        requires { IsProfiled (view value) }
        ensures { result ≡ view value }
    {
        Json { value }
    }

    /// The value, for a look inside.
    pub fn value(&self) -> &Value
        ensures value { view result.now ≡ self.now }
        ensures profiled { IsProfiled self.now }
    {
        &self.value
    }

    /// The text, of a string.
    pub fn as_str(&self) -> Option<&str>
        ensures { option_map (λ text. text.now) result ≡ str_of self.now }
    {
        self.value.as_str()
    }

    /// The flag, of `true` or `false`.
    pub fn as_bool(&self) -> Option<bool>
        ensures { result ≡ bool_of self.now }
    {
        self.value.as_bool()
    }

    /// The number, of a number.
    pub fn as_i64(&self) -> Option<i64>
        ensures { result ≡ option_and_then i64_of (as_number self.now) }
    {
        self.value.as_i64()
    }

    /// The members, of an object.
    pub fn into_object(self) -> Option<Object>
        ensures { result ≡ as_object self }
    {
        let Json { value } = self;
        match value {
            Value::Object(members) => Some(Object::of_members(members)),
            _ => None,
        }
    }

    /// The items in order, of an array.
    pub fn into_list(self, alloc: Global) -> Result<Option<Vec<Json>>, AllocError>
        ensures { IfOk result (λ list. option_map (λ items. items_of items.items) list ≡ as_array self) }
    {
        let Json { value } = self;
        match value {
            Value::Array(items) => Ok(Some(profiled_items(alloc, items)?)),
            _ => Ok(None),
        }
    }

    /// A copy of the members without those whose names begin with `_`, as a body.
    pub fn object_without_specials(&self, alloc: Global) -> Result<Body, JsonFault>
        ensures body { IfOk result (λ body. option_map without_specials (as_object self.now) ≡ Some body) }
        ensures nests { IfOk result (λ body. nesting (object body) ≤ max_body_nesting) }
        ensures not_an_object { (result ≡ Err NotAnObject) ↔ (as_object self.now ≡ None) }
        ensures depth { result ≡ Err Depth → (body : Members)
            × ((option_map without_specials (as_object self.now) ≡ Some body) × (max_body_nesting < nesting (object body))) }
        ensures of_value { (result ≢ Err Malformed) × (result ≢ Err Number) }
    {
        let Some(members) = self.value.as_object() else {
            return Err(JsonFault::NotAnObject);
        };
        let kept = copy_plain(alloc, members)?;
        Body::of_plain(alloc, kept)
    }

    /// The compact text.
    pub fn text(&self, alloc: Global) -> Result<String, AllocError>
        ensures { IfOk result (λ text. string_bytes text ≡ compact_text self.now) }
    {
        self.value.to_string(alloc)
    }
}

fn profiled_items(alloc: Global, items: Vec<Value>) -> Result<Vec<Json>, AllocError>
    requires { IsProfiled (array (items_view items.items)) }
    ensures { IfOk result (λ list. items_of list.items ≡ items_view items.items) }
{
    let mut list = Vec::with_capacity(alloc, items.len())?;
    for value in items {
        list.push(Json::of_value(value))?;
    }
    Ok(list)
}
