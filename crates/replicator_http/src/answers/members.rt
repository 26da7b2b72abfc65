//! What is under a name.
ghost use Rattle.std.specs.Prelude.{◌≡◌, option_and_then, option_map};
ghost use Rattle.serde_json.specs.Find.{as_str, get};
ghost use Rattle.document_json.specs.Each.{DecidesEach};
ghost use Rattle.document_json.specs.Steps.{Decides};
ghost use Rattle.replicator_http.specs.Members.{id_under, list_under, number_under, rev_under, revs_in};

use api_json::{read_revisions, take_texts};
use document_id::DocId;
use document_json::{Fault, Reason, name_revision, read_id};
use json_profile::Json;
use revision_id::RevId;
use serde_json::Value;
use std::alloc::Global;

/// The number under a name.
pub(crate) fn number_under(value: &Json, name: &str) -> Result<u64, Reason>
    ensures { result ≡ number_under name.now value.now }
{
    match value.value().get(name).and_then(Value::as_u64) {
        Some(number) => Ok(number),
        None => Err(Reason::Shape),
    }
}

/// The text under a name, if there is one.
pub(crate) fn text_under<'a>(value: &'a Json, name: &str) -> Option<&'a str>
    ensures { option_map (λ text. text.now) result ≡ option_and_then as_str (get name.now value.now) }
{
    value.value().get(name).and_then(Value::as_str)
}

/// The id under a name.
pub(crate) fn id_under(alloc: Global, value: &Json, name: &str) -> Result<DocId, Fault>
    ensures { Decides result (id_under name.now value.now) }
{
    let Some(text) = text_under(value, name) else {
        return Err(Fault::Refused(Reason::Shape));
    };
    read_id(alloc, text)
}

/// The revision under a name.
pub(crate) fn rev_under(value: &Json, name: &str) -> Result<RevId, Reason>
    ensures { result ≡ rev_under name.now value.now }
{
    match text_under(value, name) {
        Some(text) => name_revision(text),
        None => Err(Reason::Shape),
    }
}

/// The list under a name.
pub(crate) fn take_list(alloc: Global, value: Json, name: &str) -> Result<Vec<Json>, Fault>
    ensures { DecidesEach result (list_under name.now value) }
{
    let Some(mut object) = value.into_object() else {
        return Err(Fault::Refused(Reason::Shape));
    };
    let Some(list) = object.take(name) else {
        return Err(Fault::Refused(Reason::Shape));
    };
    match list.into_list(alloc)? {
        Some(values) => Ok(values),
        None => Err(Fault::Refused(Reason::Shape)),
    }
}

/// The revisions of a list of their texts.
pub(crate) fn read_revs(alloc: Global, value: Json) -> Result<Vec<RevId>, Fault>
    ensures { DecidesEach result (revs_in value) }
{
    let Some(texts) = take_texts(alloc, value)? else {
        return Err(Fault::Refused(Reason::Shape));
    };
    read_revisions(alloc, texts)
}
