//! Local documents, as bodies write them.
ghost use Rattle.std.specs.Prelude.{◌≡◌, IfOk, IfSome, option_map, string_bytes};
ghost use Rattle.model.specs.Command.{IsCounter};
ghost use Rattle.serde_json.specs.Find.{as_object};
ghost use Rattle.document_json.specs.Document.{names_no_other, nesting_parts, text_of};
ghost use Rattle.document_json.specs.Local.{counter_in, counter_over, local_document_of, local_edit_of, local_id, local_parts_found, local_parts_of};
ghost use Rattle.document_json.specs.Steps.{Decides};

use crate::counter::name_counter;
use crate::document::{Parts, as_known_document};
use crate::fault::{Fault, Reason};
use crate::named::named_once;
use crate::text::read_json;
use commands::Command;
use document_id::DocId;
use json_profile::{Json, Object};
use std::alloc::{AllocError, Global};
use std::sync::Arc;

/// Takes an object apart, and refuses one whose body nests too deep.
fn take_local_parts(alloc: Global, mut object: Object) -> Result<Parts, Fault>
    ensures { Decides result (nesting_parts (local_parts_of object)) }
{
    let id = object.take("_id");
    let rev = object.take("_rev");
    let has_other = object.has_special();
    let body = object.into_body(alloc)?;
    Ok(Parts {
        id,
        rev,
        deleted: None,
        revisions: None,
        has_other,
        body,
    })
}

/// The parts of a value, if it is an object.
fn read_local_parts(alloc: Global, value: Json) -> Result<Option<Parts>, Fault>
    ensures { Decides result (local_parts_found (as_object value)) }
{
    let Some(object) = value.into_object() else {
        return Ok(None);
    };
    Ok(Some(take_local_parts(alloc, object)?))
}

/// The document of a body, with no special member but `_id` and `_rev`.
fn read_local_document(alloc: Global, body: &[u8]) -> Result<Parts, Fault>
    ensures { Decides result (local_document_of body.now) }
{
    let value = read_json(alloc, body)?;
    Ok(as_known_document(read_local_parts(alloc, value)?)?)
}

/// The id of a local document as bodies and answers write it, `_local/ID`.
pub fn local_id_text(alloc: Global, id: &DocId) -> Result<String, AllocError>
    ensures { IfOk result (λ text. string_bytes text ≡ local_id id.now) }
{
    let text = id.as_str();
    format!(in alloc; "_local/{text}")
}

/// Whether the document has this id, where it has one.
fn names_local(alloc: Global, parts: &Parts, id: &DocId) -> Result<bool, AllocError>
    ensures { IfOk result (λ same. same ≡ names_no_other (local_id id.now) (text_of parts.now.id)) }
{
    let Some(own) = &parts.id else {
        return Ok(true);
    };
    let Some(text) = own.as_str() else {
        return Ok(true);
    };
    let whole = local_id_text(alloc, id)?;
    Ok(text == whole.as_str())
}

/// The revision in `_rev`.
fn own_counter(parts: &Parts) -> Result<Option<u32>, Reason>
    ensures decides { result ≡ counter_in (text_of parts.now.rev) }
    ensures is_counter { IfOk result (λ counter. IfSome counter IsCounter) }
{
    let Some(value) = &parts.rev else {
        return Ok(None);
    };
    name_counter(value.as_str())
}

/// The revision that a parameter and the document name, where the document has this id.
fn counter_over(
    alloc: Global,
    id: &DocId,
    counter: Option<u32>,
    parts: &Parts,
) -> Result<Option<u32>, Fault>
    requires { IfSome counter IsCounter }
    ensures decides { Decides result (counter_over id.now counter parts.now) }
    ensures is_counter { IfOk result (λ named. IfSome named IsCounter) }
{
    if !names_local(alloc, parts, id)? {
        return Err(Fault::Refused(Reason::Id));
    }
    let own = own_counter(parts)?;
    Ok(named_once(counter, own)?)
}

/// The write of a local document over a revision, where one is named, as a body writes it.
///
/// # Errors
///
/// What is named and is no revision is refused by [`Reason::Revision`]. A body that is no JSON of
/// the profile is refused as that, one that nests too deep for a document by [`Reason::Depth`], one
/// that is no document by [`Reason::Shape`], a special member beside `_id` and `_rev` by
/// [`Reason::Member`], another id by [`Reason::Id`], and a wrong or another revision by
/// [`Reason::Revision`].
pub fn read_local_edit(
    alloc: Global,
    id: DocId,
    rev: Option<&str>,
    body: &[u8],
) -> Result<Command, Fault>
    ensures { Decides result (local_edit_of id (option_map (λ t. t.now) rev.entry) body.now) }
{
    let counter = name_counter(rev)?;
    let parts = read_local_document(alloc, body)?;
    let named = counter_over(alloc, &id, counter, &parts)?;
    let Ok(body) = Arc::new(alloc, parts.body) else {
        return Err(Fault::Memory);
    };
    let Some(command) = Command::put_local(id, named, Some(body)) else {
        unreachable!()
    };
    Ok(command)
}
