//! Lists of texts, and of the revisions of texts.
ghost use Rattle.std.specs.Prelude.{◌≡◌, IfOk, is_some, option_map};
ghost use Rattle.serde_json.specs.Find.{as_str};
ghost use Rattle.document_json.specs.Each.{DecidesEach, each as each_of};
ghost use Rattle.api_json.specs.TextLists.{are_texts, rev_in, text_list_of, texts_in};

use document_json::{Fault, Reason, each, name_revision, read_json};
use json_profile::Json;
use revision_id::RevId;
use std::alloc::{AllocError, Global};

/// The texts of the list that a JSON text is, if it is a list of texts.
pub fn read_text_list(alloc: Global, text: &str) -> Result<Option<Vec<Json>>, AllocError>
    ensures { IfOk result (λ found. option_map (λ values. values.items) found ≡ text_list_of text.now) }
{
    match read_json(alloc, text.as_bytes()) {
        Ok(value) => take_texts(alloc, value),
        Err(Fault::Refused(_)) => Ok(None),
        Err(Fault::Memory) => Err(AllocError),
    }
}

/// The items of a list of texts.
pub fn take_texts(alloc: Global, value: Json) -> Result<Option<Vec<Json>>, AllocError>
    ensures { IfOk result (λ texts. option_map (λ t. t.items) texts ≡ texts_in value) }
{
    let Some(values) = value.into_list(alloc)? else {
        return Ok(None);
    };
    if !are_texts(&values) {
        return Ok(None);
    }
    Ok(Some(values))
}

/// Whether each value is a text.
fn are_texts(values: &[Json]) -> bool
    ensures { result ≡ are_texts values.now }
{
    values.iter().all(is_text)
}

/// Whether the value is a text.
fn is_text(value: &Json) -> bool
    ensures { result ≡ is_some (as_str value.now) }
{
    value.as_str().is_some()
}

/// The revision of each text.
///
/// # Errors
///
/// A value that is no text of a revision is refused by [`Reason::Revision`], and memory may be
/// refused.
pub fn read_revisions(alloc: Global, texts: Vec<Json>) -> Result<Vec<RevId>, Fault>
    ensures { DecidesEach result (each_of rev_in texts.items) }
{
    each(alloc, texts, |text| Ok(read_revision_text(&text)?))
}

/// The revision of a text.
fn read_revision_text(text: &Json) -> Result<RevId, Reason>
    ensures { result ≡ rev_in text.now }
{
    match text.as_str() {
        Some(text) => name_revision(text),
        None => Err(Reason::Revision),
    }
}
