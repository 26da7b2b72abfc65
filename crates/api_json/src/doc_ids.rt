//! The documents that a body lists.
ghost use Rattle.std.specs.Prelude.{◌≡◌, IfOk, map, option_map};
ghost use Rattle.std.specs.List.{filter_map};
ghost use Rattle.serde_json.specs.Find.{as_str};
ghost use Rattle.api_json.specs.DocIds.{doc_ids_of, ids_in, texts_listed};
ghost use Rattle.document_json.specs.Steps.{Decides};

use crate::text_list::take_texts;
use document_id::DocIds;
use document_json::{Fault, Reason, read_json};
use json_profile::Json;
use std::alloc::{AllocError, Global};

/// The documents that a body lists as `doc_ids`, in whatever order and however often. A text that is no id names none.
///
/// # Errors
///
/// A body that is no JSON of the profile is refused as that, one that is no object with a list of texts by
/// [`Reason::Shape`], and memory may be refused.
pub fn read_doc_ids(alloc: Global, body: &[u8]) -> Result<DocIds, Fault>
    ensures { Decides result (doc_ids_of body.now) }
{
    let value = read_json(alloc, body)?;
    let Some(values) = take_listed(alloc, value)? else {
        return Err(Fault::Refused(Reason::Shape));
    };
    Ok(name_documents(alloc, &values)?)
}

/// The texts that are listed, if they are.
fn take_listed(alloc: Global, value: Json) -> Result<Option<Vec<Json>>, AllocError>
    ensures { IfOk result (λ texts. option_map (λ t. t.items) texts ≡ texts_listed value) }
{
    let Some(mut object) = value.into_object() else {
        return Ok(None);
    };
    let Some(listed) = object.take("doc_ids") else {
        return Ok(None);
    };
    take_texts(alloc, listed)
}

/// The documents that texts name.
fn name_documents(alloc: Global, values: &[Json]) -> Result<DocIds, AllocError>
    ensures { IfOk result (λ ids. ids ≡ ids_in values.now) }
{
    let texts = texts_of(alloc, values)?;
    DocIds::named(alloc, &texts)
}

/// The texts among some values.
fn texts_of(alloc: Global, values: &[Json]) -> Result<Vec<&str>, AllocError>
    ensures { IfOk result (λ texts. map (λ t. t.now) texts.items ≡ filter_map as_str values.now) }
{
    let mut texts = Vec::with_capacity(alloc, values.len())?;
    for value in values {
        if let Some(text) = value.as_str() {
            texts.push(text)?;
        }
    }
    Ok(texts)
}
