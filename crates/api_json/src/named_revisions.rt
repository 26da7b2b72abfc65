//! The revisions of documents, as a body names them.
//!
//! Each check is made of all of them before the next.
ghost use Rattle.std.specs.Prelude.{◌≡◌, true};
ghost use Rattle.model.specs.Profile.{members_ordered};
ghost use Rattle.api_json.specs.NamedRevisions.{asked_in, named_revisions_of, member_texts, named_in, pairs_in, revs_named, texts_listed, texts_named};
ghost use Rattle.document_json.specs.Each.{DecidesEach, each as each_of};
ghost use Rattle.document_json.specs.Steps.{Decides};

use crate::text_list::{read_revisions, take_texts};
use commands::{AskedRevisions, NamedRevisions};
use document_id::DocId;
use document_json::{Fault, Reason, each, read_id, read_json};
use json_profile::{Json, Member, Object};
use std::alloc::Global;
use std::marker::Model;

/// The texts that are listed under a name.
#[derive(Drop)]
pub(crate) struct ListedTexts {
    name: String,
    texts: Vec<Json>,
}

impl Model for ListedTexts {
    ghost use Rattle.std.specs.Prelude.{ℕ, List, string_bytes};
    ghost use Rattle.std.specs.Coded.{codes};
    ghost use Rattle.serde_json.specs.Data.{Data};
    ghost use Rattle.model.specs.JsonCode.{coded_data};

    ghost Value = { List ℕ × List Data };

    ghost coded = { Prim.hlevel (codes, coded_data) };

    ghost view = { λ l. (string_bytes l.name, l.texts.items) };
}

/// The texts that are listed of a document.
#[derive(Drop)]
pub(crate) struct NamedTexts {
    id: DocId,
    texts: Vec<Json>,
}

impl Model for NamedTexts {
    ghost use Rattle.std.specs.Prelude.{List};
    ghost use Rattle.std.specs.Coded.{codes};
    ghost use Rattle.serde_json.specs.Data.{Data};
    ghost use Rattle.model.specs.JsonCode.{coded_data};
    ghost use Rattle.model.specs.Command.{Id};

    ghost Value = { Id × List Data };

    ghost coded = { Prim.hlevel (codes, coded_data) };

    ghost view = { λ n. (n.id, n.texts.items) };
}

/// The revisions that a body lists under the ids of documents.
///
/// # Errors
///
/// A body that is no JSON of the profile is refused as that, and then by the first of these that
/// some document gives: [`Reason::Shape`], [`Reason::Id`], [`Reason::Revision`]. Memory may be
/// refused.
pub fn read_named_revisions(alloc: Global, body: &[u8]) -> Result<NamedRevisions, Fault>
    ensures { Decides result (named_revisions_of body.now) }
{
    let value = read_json(alloc, body)?;
    let _recalled = value.value();
    let Some(object) = value.into_object() else {
        return Err(Fault::Refused(Reason::Shape));
    };
    name_revisions(alloc, object)
}

/// The revisions that the members of an object list.
fn name_revisions(alloc: Global, object: Object) -> Result<NamedRevisions, Fault>
    requires { members_ordered object ≡ true }
    ensures { Decides result (named_in object) }
{
    let asked = read_asked(alloc, object)?;
    let Some(named) = NamedRevisions::new(asked) else {
        unreachable!()
    };
    Ok(named)
}

/// The revisions that are listed of each document.
#[tactic(auto, unfolding(crate::specs::NamedRevisions::asked_in))]
fn read_asked(alloc: Global, object: Object) -> Result<Vec<AskedRevisions>, Fault>
    ensures { DecidesEach result (asked_in (pairs_in object)) }
{
    let listed = list_all_texts(alloc, object)?;
    let named = name_all_texts(alloc, listed)?;
    read_all_revisions(alloc, named)
}

/// The texts under each name of an object.
fn list_all_texts(alloc: Global, object: Object) -> Result<Vec<ListedTexts>, Fault>
    ensures { DecidesEach result (each_of texts_listed (pairs_in object)) }
{
    let members = object.into_members(alloc)?;
    list_members(alloc, members)
}

/// The texts under each name.
fn list_members(alloc: Global, members: Vec<Member>) -> Result<Vec<ListedTexts>, Fault>
    ensures { DecidesEach result (each_of member_texts members.items) }
{
    each(alloc, members, |member| list_texts(alloc, member))
}

/// The texts of each document.
fn name_all_texts(alloc: Global, listed: Vec<ListedTexts>) -> Result<Vec<NamedTexts>, Fault>
    ensures { DecidesEach result (each_of texts_named listed.items) }
{
    each(alloc, listed, |texts| name_texts(alloc, texts))
}

/// The revisions of each document.
fn read_all_revisions(alloc: Global, named: Vec<NamedTexts>) -> Result<Vec<AskedRevisions>, Fault>
    ensures { DecidesEach result (each_of revs_named named.items) }
{
    each(alloc, named, |texts| name_asked(alloc, texts))
}

/// The texts under a name.
fn list_texts(alloc: Global, member: Member) -> Result<ListedTexts, Fault>
    ensures { Decides result (member_texts member) }
{
    let Member { name, value } = member;
    match take_texts(alloc, value)? {
        Some(texts) => Ok(ListedTexts { name, texts }),
        None => Err(Fault::Refused(Reason::Shape)),
    }
}

/// The texts of the document that the name is the id of.
fn name_texts(alloc: Global, listed: ListedTexts) -> Result<NamedTexts, Fault>
    ensures { Decides result (texts_named listed) }
{
    let ListedTexts { name, texts } = listed;
    let id = read_id(alloc, name.as_str())?;
    Ok(NamedTexts { id, texts })
}

/// The revisions of a document.
fn name_asked(alloc: Global, named: NamedTexts) -> Result<AskedRevisions, Fault>
    ensures { Decides result (revs_named named) }
{
    let NamedTexts { id, texts } = named;
    let revisions = read_revisions(alloc, texts)?;
    Ok(AskedRevisions { id, revisions })
}
