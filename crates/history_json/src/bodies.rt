//! Bodies, as lines write them.
ghost use Rattle.std.specs.Prelude.{◌≡◌, Some, IfOk, IfSome, option_map};
ghost use Rattle.std.specs.Arc.{arc_value};
ghost use Rattle.serde_json.specs.Data.{Members, object};
ghost use Rattle.model.specs.Body.{IsBody};

use json_profile::{Body, Json, JsonFault, Object};
use std::alloc::{AllocError, Global};
use std::sync::Arc;

/// The body that a value is, if it is one.
pub fn read_body(alloc: Global, value: Json) -> Result<Option<Arc<Body>>, AllocError>
    ensures found { IfOk result (λ found. (body : Members) → IsBody body → value ≡ object body
        → option_map arc_value found ≡ Some body) }
{
    let Some(members) = value.into_object() else {
        return Ok(None);
    };
    let Some(body) = body_of(alloc, members)? else {
        return Ok(None);
    };
    Ok(Some(Arc::new(alloc, body)?))
}

/// The body of these members without those that are special, if it nests no deeper than one may.
fn body_of(alloc: Global, members: Object) -> Result<Option<Body>, AllocError>
    ensures found { IfOk result (λ found. (body : Members) → IsBody body → members ≡ body → found ≡ Some body) }
{
    match members.into_body(alloc) {
        Ok(body) => Ok(Some(body)),
        Err(JsonFault::Memory) => Err(AllocError),
        Err(_) => Ok(None),
    }
}
