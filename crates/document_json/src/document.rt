//! A document as the body of a request writes it.
ghost use Rattle.std.specs.Prelude.{◌≡◌, false, Some, Ok, option_map};
ghost use Rattle.json_profile.specs.Objects.{has_special};
ghost use Rattle.document_json.specs.Document.{document_in, edit_found, edit_of, flag_in, has_shape, is_flag, is_text, known_document_in, names_no_other, nesting_parts, parts_after, parts_found, parts_in, parts_of, revision_of, text_of, without_ignored};
ghost use Rattle.document_json.specs.Revisions.{rev_of};
ghost use Rattle.document_json.specs.Steps.{Decides};

use crate::fault::{Fault, Reason};
use crate::named::named_once;
use crate::revision::name_revision;
use crate::text::read_json;
use commands::Edit;
use document_id::DocId;
use json_profile::{Body, Json, Object};
use revision_id::RevId;
use std::alloc::Global;
use std::sync::Arc;

/// The special members of a document that count, and its body.
#[derive(Drop)]
pub(crate) struct Parts {
    pub id: Option<Json>,
    pub rev: Option<Json>,
    pub deleted: Option<Json>,
    pub revisions: Option<Json>,
    /// There is another special member, beside those that are ignored.
    pub has_other: bool,
    pub body: Body,
}

/// Takes out the special members that say nothing.
fn drop_ignored(object: &mut Object)
    ensures { object.new ≡ without_ignored object.old }
{
    drop(object.take("_local_seq"));
    drop(object.take("_revs_info"));
    drop(object.take("_conflicts"));
    drop(object.take("_deleted_conflicts"));
}

/// Takes an object apart, and refuses one whose body nests too deep.
// Inlined, as are those below that pass parts on: a value of some 200 bytes is made where it goes.
#[inline(always)]
fn take_parts(alloc: Global, mut object: Object) -> Result<Parts, Fault>
    ensures { Decides result (nesting_parts (parts_of object)) }
{
    let id = object.take("_id");
    if object.has_special() {
        return take_others(alloc, id, object);
    }
    take_plain(alloc, id, object)
}

/// Takes apart what is left behind the id, where nothing special is.
fn take_plain(alloc: Global, id: Option<Json>, object: Object) -> Result<Parts, Fault>
    requires { has_special object ≡ false }
    ensures { Decides result (nesting_parts (parts_after id object)) }
{
    let body = object.into_body(alloc)?;
    Ok(Parts {
        id,
        rev: None,
        deleted: None,
        revisions: None,
        has_other: false,
        body,
    })
}

/// Takes apart what is left behind the id.
fn take_others(alloc: Global, id: Option<Json>, mut object: Object) -> Result<Parts, Fault>
    ensures { Decides result (nesting_parts (parts_after id object)) }
{
    let rev = object.take("_rev");
    let deleted = object.take("_deleted");
    let revisions = object.take("_revisions");
    drop_ignored(&mut object);
    let has_other = object.has_special();
    let body = object.into_body(alloc)?;
    Ok(Parts {
        id,
        rev,
        deleted,
        revisions,
        has_other,
        body,
    })
}

/// The parts of a document, if the value is an object.
#[inline(always)]
pub(crate) fn read_parts(alloc: Global, value: Json) -> Result<Option<Parts>, Fault>
    ensures { Decides result (parts_in value) }
{
    let Some(object) = value.into_object() else {
        return Ok(None);
    };
    Ok(Some(take_parts(alloc, object)?))
}

/// Whether what is there is a text.
fn is_text(value: &Option<Json>) -> bool
    ensures { result ≡ is_text value.now }
{
    match value {
        Some(value) => value.as_str().is_some(),
        None => true,
    }
}

/// Whether what is there is a truth value.
fn is_flag(value: &Option<Json>) -> bool
    ensures { result ≡ is_flag value.now }
{
    match value {
        Some(value) => value.as_bool().is_some(),
        None => true,
    }
}

impl Parts {
    /// Whether the members that count have the types that a document asks for.
    fn has_shape(&self) -> bool
        ensures { result ≡ has_shape self.now }
    {
        is_text(&self.id) && is_text(&self.rev) && is_flag(&self.deleted)
    }

    /// Whether the id is this one, where there is one.
    fn names_no_other(&self, id: &DocId) -> bool
        ensures { result ≡ names_no_other id.now (text_of self.now.id) }
    {
        match self.id_text() {
            Some(text) => text == id.as_str(),
            None => true,
        }
    }

    /// The text of `_id`.
    pub(crate) fn id_text(&self) -> Option<&str>
        ensures { option_map (λ text. text.now) result ≡ text_of self.now.id }
    {
        match &self.id {
            Some(id) => id.as_str(),
            None => None,
        }
    }

    /// The revision in `_rev`.
    pub(crate) fn own_revision(&self) -> Result<Option<RevId>, Reason>
        ensures { result ≡ rev_of (text_of self.now.rev) }
    {
        let Some(value) = &self.rev else {
            return Ok(None);
        };
        let Some(text) = value.as_str() else {
            return Ok(None);
        };
        Ok(Some(name_revision(text)?))
    }

    /// The revision that a parameter and the document name, where the document has this id.
    fn revision_of(&self, id: &DocId, parameter: Option<RevId>) -> Result<Option<RevId>, Reason>
        ensures { result ≡ revision_of id.now parameter self.now }
    {
        if !self.names_no_other(id) {
            return Err(Reason::Id);
        }
        let own = self.own_revision()?;
        named_once(parameter, own)
    }

    /// Whether this is a deletion.
    pub(crate) fn is_deleted(&self) -> bool
        ensures { result ≡ flag_in self.now.deleted }
    {
        match &self.deleted {
            Some(value) => value.as_bool().unwrap_or(false),
            None => false,
        }
    }
}

impl Parts {
    /// The edit of this document over a revision.
    pub(crate) fn into_edit(
        self,
        alloc: Global,
        id: DocId,
        named: Option<RevId>,
    ) -> Result<Edit, Fault>
        ensures { Decides result (Ok (record {
          id = id;
          named = named;
          deleted = flag_in self.deleted;
          body = self.body;
        })) }
    {
        let deleted = self.is_deleted();
        edit_with(alloc, id, named, deleted, self.body)
    }
}

/// The parts of a value that has the shape of a document.
#[inline(always)]
pub(crate) fn as_document(parts: Option<Parts>) -> Result<Parts, Reason>
    ensures { result ≡ document_in parts }
{
    match parts {
        Some(parts) if parts.has_shape() => Ok(parts),
        _ => Err(Reason::Shape),
    }
}

/// The parts of a value that has the shape of a document, with no special member that is unknown.
#[inline(always)]
pub(crate) fn as_known_document(parts: Option<Parts>) -> Result<Parts, Reason>
    ensures { result ≡ known_document_in parts }
{
    let parts = as_document(parts)?;
    if parts.has_other {
        return Err(Reason::Member);
    }
    Ok(parts)
}

/// The edit that puts this body over a revision.
fn edit_with(
    alloc: Global,
    id: DocId,
    named: Option<RevId>,
    deleted: bool,
    body: Body,
) -> Result<Edit, Fault>
    ensures { Decides result (Ok (record {
      id = id;
      named = named;
      deleted = deleted;
      body = body;
    })) }
{
    let Ok(body) = Arc::new(alloc, body) else {
        return Err(Fault::Memory);
    };
    Ok(Edit {
        id,
        named,
        deleted,
        body,
    })
}

/// The edit of an object that may have special members.
fn read_special(alloc: Global, id: DocId, rev: Option<RevId>, object: Object) -> Result<Edit, Fault>
    ensures { Decides result (edit_found id rev (parts_found (Some object))) }
{
    let parts = take_parts(alloc, object)?;
    let parts = as_known_document(Some(parts))?;
    match parts.revision_of(&id, rev) {
        Ok(named) => parts.into_edit(alloc, id, named),
        Err(reason) => Err(Fault::Refused(reason)),
    }
}

/// The edit of an object. One with no special member is a body as it stands.
fn read_object(alloc: Global, id: DocId, rev: Option<RevId>, object: Object) -> Result<Edit, Fault>
    ensures { Decides result (edit_found id rev (parts_found (Some object))) }
{
    if object.has_special() {
        return read_special(alloc, id, rev, object);
    }
    let body = object.into_body(alloc)?;
    edit_with(alloc, id, rev, false, body)
}

/// The edit of the document that the path and the parameters name, as a body writes it.
///
/// # Errors
///
/// A body that is no JSON of the profile is refused as that, one that nests too deep for a document by
/// [`Reason::Depth`], one that is no document by [`Reason::Shape`], an unknown special member by
/// [`Reason::Member`], another id by [`Reason::Id`], and a wrong or another revision by
/// [`Reason::Revision`].
pub fn read_edit(alloc: Global, id: DocId, rev: Option<RevId>, body: &[u8]) -> Result<Edit, Fault>
    ensures { Decides result (edit_of id rev body.now) }
{
    let value = read_json(alloc, body)?;
    let Some(object) = value.into_object() else {
        return Err(Fault::Refused(Reason::Shape));
    };
    read_object(alloc, id, rev, object)
}
