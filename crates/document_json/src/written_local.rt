//! Local documents, as they are written.
ghost use Rattle.std.specs.Prelude.{◌≡◌, IfOk, string_bytes};
ghost use Rattle.serde_json.specs.Written.{compact_text};
ghost use Rattle.document_json.specs.Written.{counter_text, local_data};

use crate::local::local_id_text;
use crate::special::{text_around, text_before};
use document_id::DocId;
use json_profile::Body;
use std::alloc::{AllocError, Global};

/// Room for the names of `_id` and `_rev`, the marks of JSON, `_local/` and a revision.
const SPECIAL_ROOM: usize = 40;

/// The revision of a local document, `0-k`.
pub fn counter_text(alloc: Global, counter: u32) -> Result<String, AllocError>
    ensures { IfOk result (λ text. string_bytes text ≡ counter_text counter) }
{
    format!(in alloc; "0-{counter}")
}

/// The text of a local document.
pub fn local_text(
    alloc: Global,
    id: &DocId,
    counter: u32,
    body: &Body,
) -> Result<String, AllocError>
    ensures { IfOk result (λ text. string_bytes text
        ≡ compact_text (local_data id.now (counter, body.now))) }
{
    let id = local_id_text(alloc, id)?;
    let rev = counter_text(alloc, counter)?;
    let mut special = text_before(alloc, body, id.len().saturating_add(SPECIAL_ROOM))?;
    special.push_string(alloc, "_id", id.as_str())?;
    special.push_string(alloc, "_rev", rev.as_str())?;
    text_around(special, body)
}
