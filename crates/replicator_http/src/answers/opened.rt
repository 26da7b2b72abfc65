//! Revisions of a document, as an answer gives them.
ghost use Rattle.std.specs.Prelude.{◌≡◌, codes};
ghost use Rattle.serde_json.specs.Find.{get_member};
ghost use Rattle.document_json.specs.Each.{DecidesEach, each as each_of};
ghost use Rattle.document_json.specs.Steps.{Decides};
ghost use Rattle.api_json.specs.TextLists.{rev_in};
ghost use Rattle.replicator_http.specs.Opened.{all_opened_in, all_opened_of, opened_by, opened_in};

use commands::Merge;
use document_json::{Fault, Reason, each, name_revision, read_json, read_told_merge};
use json_profile::{Json, Object};
use revision_id::RevId;
use std::alloc::Global;

/// The revisions that were asked for, each as a document with its path, or its name where it is
/// missing, as an answer gives them.
///
/// # Errors
///
/// An answer that is no JSON of the profile is refused as that, and then one after another what is
/// given, by the first of these: [`Reason::Depth`] of a body, [`Reason::Shape`],
/// [`Reason::Member`], [`Reason::Id`], [`Reason::Revision`].
pub fn read_opened(alloc: Global, body: &[u8]) -> Result<Vec<Result<Merge, RevId>>, Fault>
    ensures opened { DecidesEach result (all_opened_of body.now) }
{
    let value = read_json(alloc, body)?;
    read_list(alloc, value)
}

fn read_list(alloc: Global, value: Json) -> Result<Vec<Result<Merge, RevId>>, Fault>
    ensures { DecidesEach result (all_opened_in value) }
{
    let Some(values) = value.into_list(alloc)? else {
        return Err(Fault::Refused(Reason::Shape));
    };
    read_all(alloc, values)
}

fn read_all(alloc: Global, values: Vec<Json>) -> Result<Vec<Result<Merge, RevId>>, Fault>
    ensures { DecidesEach result (each_of opened_in values.items) }
{
    each(alloc, values, |value| read_one(alloc, value))
}

/// A revision as a document, or its name where it is missing.
fn read_one(alloc: Global, value: Json) -> Result<Result<Merge, RevId>, Fault>
    ensures { Decides result (opened_in value) }
{
    let Some(object) = value.into_object() else {
        return Err(Fault::Refused(Reason::Shape));
    };
    let (document, missing) = take_either(object);
    read_either(alloc, document, missing)
}

fn take_either(object: Object) -> (Option<Json>, Option<Json>)
    ensures document { result.0 ≡ get_member (codes "ok") object }
    ensures missing { result.1 ≡ get_member (codes "missing") object }
{
    let mut object = object;
    let document = object.take("ok");
    let missing = object.take("missing");
    (document, missing)
}

fn read_either(
    alloc: Global,
    document: Option<Json>,
    missing: Option<Json>,
) -> Result<Result<Merge, RevId>, Fault>
    ensures { Decides result (opened_by document missing) }
{
    if let Some(document) = document {
        let merge = read_told_merge(alloc, document)?;
        return Ok(Ok(merge));
    }
    let Some(missing) = missing else {
        return Err(Fault::Refused(Reason::Shape));
    };
    let rev = read_rev(&missing)?;
    Ok(Err(rev))
}

fn read_rev(value: &Json) -> Result<RevId, Reason>
    ensures { result ≡ rev_in value.now }
{
    match value.as_str() {
        Some(text) => name_revision(text),
        None => Err(Reason::Revision),
    }
}
