//! What became of a bulk of revisions from elsewhere.
ghost use Rattle.std.specs.Prelude.{◌≡◌};
ghost use Rattle.serde_json.specs.View.{items_view};
ghost use Rattle.document_json.specs.Steps.{Decides};
ghost use Rattle.replicator_http.specs.Bulk.{all_taken_in, all_taken_of, is_empty};

use document_json::{Fault, read_json};
use json_profile::Json;
use serde_json::Value;
use std::alloc::Global;

/// Whether all the documents of a bulk were taken: the answer is the list of those that were refused,
/// and empty.
///
/// # Errors
///
/// An answer that is no JSON of the profile is refused as that.
pub fn read_all_taken(alloc: Global, body: &[u8]) -> Result<bool, Fault>
    ensures taken { Decides result (all_taken_of body.now) }
{
    let value = read_json(alloc, body)?;
    Ok(are_all_taken(&value))
}

fn are_all_taken(value: &Json) -> bool
    ensures { result ≡ all_taken_in value.now }
{
    match value.value().as_array() {
        Some(refused) => is_none(refused),
        None => false,
    }
}

/// Whether no refusal is listed.
fn is_none(refused: &[Value]) -> bool
    ensures { result ≡ is_empty (items_view refused.now) }
{
    refused.is_empty()
}
