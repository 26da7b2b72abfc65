//! The local documents of a base, as its text writes them.
ghost use Rattle.std.specs.Prelude.{◌≡◌, ◌++◌, List, All, map, option_map, Some, IfOk, OnOk, string_bytes};
ghost use Rattle.serde_json.specs.Data.{array, number, object, string, unsigned};
ghost use Rattle.serde_json.specs.View.{items_of};
ghost use Rattle.serde_json.specs.Written.{compact_text};
ghost use Rattle.model.specs.Command.{Id};
ghost use Rattle.model.specs.Database.{IsLocal};
ghost use Rattle.model.specs.Local.{Local};
ghost use Rattle.model.specs.Map.{entries};
ghost use Rattle.base_json.specs.Base.{kept_local_data};

use crate::each::ListItem;
use document_id::DocId;
use document_json::put_comma;
use history_json::{LineValue, read_body, small_number_in};
use json_profile::{Body, Json};
use local_docs::{LocalDoc, Locals};
use std::alloc::{AllocError, Global};

/// Writes the local documents in the order of their ids.
pub(crate) fn put_locals(
    text: &mut String,
    alloc: Global,
    locals: &Locals,
) -> Result<(), AllocError>
    ensures { OnOk result (string_bytes text.new ≡ string_bytes text.old
        ++ compact_text (array (items_of (map kept_local_data (entries locals.now))))) }
{
    text.push_str("[")?;
    let mut later = false;
    for (id, document) in locals.iter() {
        put_comma(text, later)?;
        put_kept(text, alloc, id, document)?;
        later = true;
    }
    text.push_str("]")
}

/// Writes one local document.
fn put_kept(
    text: &mut String,
    alloc: Global,
    id: &DocId,
    document: &LocalDoc,
) -> Result<(), AllocError>
    ensures { OnOk result (string_bytes text.new
        ≡ string_bytes text.old ++ compact_text (kept_local_data (id.now, document.now))) }
{
    put_parts(text, alloc, id, document.counter, &document.body)
}

/// Writes the local document of these parts.
fn put_parts(
    text: &mut String,
    alloc: Global,
    id: &DocId,
    counter: u32,
    body: &Body,
) -> Result<(), AllocError>
    ensures { OnOk result (string_bytes text.new ≡ string_bytes text.old
        ++ compact_text (kept_local_data (id.now, record { counter = counter; body = body.now }))) }
{
    let body = body.text();
    write!(text, "{{\"body\":{body},\"id\":")?;
    id.put(text, alloc)?;
    write!(text, ",\"k\":{counter}}}")
}

impl ListItem for (DocId, LocalDoc) {
    ghost Shown = { Id × Local };

    ghost shown = { λ document. document };

    ghost data_of = { kept_local_data };

    ghost is_within = { λ document. IsLocal document.0 document.1 };

    fn read_item(alloc: Global, value: Json) -> Result<Option<(DocId, LocalDoc)>, AllocError> {
        let Some(mut members) = value.into_object() else {
            return Ok(None);
        };
        let Some(body) = members.take("body") else {
            return Ok(None);
        };
        let Some(id) = members.take("id") else {
            return Ok(None);
        };
        let Some(counter) = members.take("k") else {
            return Ok(None);
        };
        kept_of(alloc, body, id, &counter)
    }
}

/// The local document of these values.
fn kept_of(
    alloc: Global,
    body: Json,
    id: Json,
    counter: &Json,
) -> Result<Option<(DocId, LocalDoc)>, AllocError>
    ensures { IfOk result (λ found. (document : Id × Local) → IsLocal document.0 document.1
        → body ≡ object document.1.body → id ≡ string document.0
        → counter.now ≡ number (unsigned document.1.counter) → found ≡ Some document) }
{
    let Some(counter) = small_number_in(counter) else {
        return Ok(None);
    };
    let Some(id) = DocId::read(alloc, id)? else {
        return Ok(None);
    };
    let Some(body) = read_body(alloc, body)? else {
        return Ok(None);
    };
    Ok(Some((id, LocalDoc { counter, body })))
}
