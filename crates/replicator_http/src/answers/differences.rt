//! The revisions that are lacking, as an answer reports them.
ghost use Rattle.std.specs.Prelude.{◌≡◌, true, codes};
ghost use Rattle.serde_json.specs.Data.{Members};
ghost use Rattle.serde_json.specs.Find.{get_member};
ghost use Rattle.model.specs.Profile.{members_ordered};
ghost use Rattle.api_json.specs.NamedRevisions.{pairs_in};
ghost use Rattle.document_json.specs.Each.{DecidesEach, each as each_of};
ghost use Rattle.document_json.specs.Steps.{Decides};
ghost use Rattle.replicator_http.specs.Differences.{ancestors_in, difference_in, differences_in, differences_of, member_difference, missing_in, named_difference};

use crate::answers::members::read_revs;
use document_id::DocId;
use document_json::{Fault, Reason, each, read_id, read_json};
use json_profile::{Json, Member, Object};
use queries::{Difference, Differences};
use revision_id::RevId;
use std::alloc::Global;

/// The documents that lack revisions, as an answer reports them.
///
/// # Errors
///
/// An answer that is no JSON of the profile is refused as that, and then by the first of these:
/// [`Reason::Shape`], [`Reason::Id`] and [`Reason::Revision`], document by document. Memory may be
/// refused.
pub fn read_differences(alloc: Global, body: &[u8]) -> Result<Differences, Fault>
    ensures differences { Decides result (differences_of body.now) }
{
    let value = read_json(alloc, body)?;
    let _recalled = value.value();
    let Some(object) = value.into_object() else {
        return Err(Fault::Refused(Reason::Shape));
    };
    name_differences(alloc, object)
}

/// What the members of an object report, in the order of their names.
fn name_differences(alloc: Global, object: Object) -> Result<Differences, Fault>
    requires { members_ordered object ≡ true }
    ensures { Decides result (differences_in object) }
{
    let documents = read_documents(alloc, object)?;
    Ok(Differences::new(documents))
}

/// Each document with what it lacks.
fn read_documents(alloc: Global, object: Object) -> Result<Vec<(DocId, Difference)>, Fault>
    ensures { DecidesEach result (each_of named_difference (pairs_in object)) }
{
    let members = object.into_members(alloc)?;
    read_members(alloc, members)
}

fn read_members(alloc: Global, members: Vec<Member>) -> Result<Vec<(DocId, Difference)>, Fault>
    ensures { DecidesEach result (each_of member_difference members.items) }
{
    each(alloc, members, |member| read_document(alloc, member))
}

/// A document with what it lacks.
fn read_document(alloc: Global, member: Member) -> Result<(DocId, Difference), Fault>
    ensures { Decides result (member_difference member) }
{
    let Member { name, value } = member;
    let id = read_id(alloc, name.as_str())?;
    let difference = read_difference(alloc, value)?;
    Ok((id, difference))
}

/// The revisions that a document lacks, with the leaves that may be their ancestors.
fn read_difference(alloc: Global, value: Json) -> Result<Difference, Fault>
    ensures { Decides result (difference_in value) }
{
    let Some(object) = value.into_object() else {
        return Err(Fault::Refused(Reason::Shape));
    };
    let (missing, ancestors) = take_lists(object);
    let missing = read_missing(alloc, missing)?;
    let possible_ancestors = read_ancestors(alloc, ancestors)?;
    Ok(Difference {
        missing,
        possible_ancestors,
    })
}

fn take_lists(object: Object) -> (Option<Json>, Option<Json>)
    ensures missing { result.0 ≡ get_member (codes "missing") object }
    ensures ancestors { result.1 ≡ get_member (codes "possible_ancestors") object }
{
    let mut object = object;
    let missing = object.take("missing");
    let ancestors = object.take("possible_ancestors");
    (missing, ancestors)
}

/// The revisions of a list that has to be there.
fn read_missing(alloc: Global, list: Option<Json>) -> Result<Vec<RevId>, Fault>
    ensures { DecidesEach result (missing_in list) }
{
    match list {
        Some(value) => read_revs(alloc, value),
        None => Err(Fault::Refused(Reason::Shape)),
    }
}

/// The revisions of a list, if it is there.
fn read_ancestors(alloc: Global, list: Option<Json>) -> Result<Vec<RevId>, Fault>
    ensures { DecidesEach result (ancestors_in list) }
{
    match list {
        Some(value) => read_revs(alloc, value),
        None => Ok(Vec::new(alloc)),
    }
}
