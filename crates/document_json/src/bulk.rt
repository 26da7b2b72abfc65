//! The documents of a bulk, as the body of a request lists them.
//!
//! Each check is made of all of them before the next.
ghost use Rattle.std.specs.Prelude.{◌≡◌, ◌≤◌, ◌||◌, true, false, None, Ok, IfOk, IfSome, is_some, length, option_map};
ghost use Rattle.model.specs.Command.{max_edits};
ghost use Rattle.commands.specs.Merge.{merge_of};
ghost use Rattle.document_json.specs.Bulk.{any_other, bulk_of, command_in, document_listed, document_named, documents_in, edit_in, known_named, listed_as, listed_in, merge_in, merge_told, merged_in, named_in, new_edits_in, path_found, path_named, revisions_of, with_path};
ghost use Rattle.document_json.specs.Document.{flag_in, parts_in};
ghost use Rattle.document_json.specs.Each.{DecidesEach, each as each_of};
ghost use Rattle.document_json.specs.Steps.{Decides};

use crate::document::{Parts, as_document, read_parts};
use crate::fault::{Fault, Reason};
use crate::identity::read_id;
use crate::path::Path;
use crate::text::read_json;
use crate::values::each;
use commands::{Command, Edit, MAX_EDITS, Merge};
use document_id::DocId;
use json_profile::Json;
use revision_id::RevId;
use std::alloc::{AllocError, Global};
use std::sync::Arc;

/// A document that has its shape, with the path that it lists where it comes from elsewhere.
#[derive(Drop)]
pub(crate) struct Listed {
    pub parts: Parts,
    pub path: Option<Path>,
}

/// A document with its id.
#[derive(Drop)]
pub(crate) struct Named {
    pub id: DocId,
    pub parts: Parts,
    pub path: Option<Path>,
}

/// The command of a bulk, as a body writes it.
///
/// # Errors
///
/// A body that is no JSON of the profile is refused as that, one that is no object with a list `docs`
/// of at most as many documents as a command takes by [`Reason::Shape`], and then by the first of
/// these: [`Reason::Depth`] of some document's body, [`Reason::Shape`] of `new_edits` or of some
/// document, [`Reason::Member`], [`Reason::Id`], [`Reason::Revision`].
pub fn read_bulk(alloc: Global, body: &[u8]) -> Result<Command, Fault>
    ensures { Decides result (bulk_of body.now) }
{
    let value = read_json(alloc, body)?;
    let new_edits = find_new_edits(&value);
    let Some(values) = take_documents(alloc, value)? else {
        return Err(Fault::Refused(Reason::Shape));
    };
    let found = read_all_parts(alloc, values)?;
    let Some(new_edits) = new_edits else {
        return Err(Fault::Refused(Reason::Shape));
    };
    let documents = read_documents(alloc, new_edits, found)?;
    read_command(alloc, new_edits, documents)
}

/// Whether the documents are new edits, unless what says so is no truth value.
fn find_new_edits(value: &Json) -> Option<bool>
    ensures { result ≡ new_edits_in value.now }
{
    match value.value().get("new_edits") {
        Some(flag) => flag.as_bool(),
        None => Some(true),
    }
}

/// The documents that are listed, if they are and are no more than a command may have.
fn take_documents(alloc: Global, value: Json) -> Result<Option<Vec<Json>>, AllocError>
    ensures listed { IfOk result (λ values. option_map (λ v. v.items) values ≡ listed_in value) }
    ensures few { IfOk result (λ values. IfSome values (λ v. length v.items ≤ max_edits)) }
{
    let Some(mut object) = value.into_object() else {
        return Ok(None);
    };
    let Some(documents) = object.take("docs") else {
        return Ok(None);
    };
    let Some(values) = documents.into_list(alloc)? else {
        return Ok(None);
    };
    if values.len() > MAX_EDITS {
        return Ok(None);
    }
    Ok(Some(values))
}

/// The parts of each value that is an object.
fn read_all_parts(alloc: Global, values: Vec<Json>) -> Result<Vec<Option<Parts>>, Fault>
    ensures parts { DecidesEach result (each_of parts_in values.items) }
    ensures length { IfOk result (λ found. length found.items ≡ length values.items) }
{
    each(alloc, values, |value| read_parts(alloc, value))
}

/// The documents, with their shape, their members and their ids.
fn read_documents(
    alloc: Global,
    new_edits: bool,
    found: Vec<Option<Parts>>,
) -> Result<Vec<Named>, Fault>
    ensures documents { DecidesEach result (documents_in new_edits found.items) }
    ensures length { IfOk result (λ documents. length documents.items ≡ length found.items) }
{
    let documents = list_documents(alloc, new_edits, found)?;
    name_documents(alloc, documents)
}

/// Each document in its shape.
fn list_documents(
    alloc: Global,
    new_edits: bool,
    found: Vec<Option<Parts>>,
) -> Result<Vec<Listed>, Fault>
    ensures listed { DecidesEach result (each_of (document_listed new_edits) found.items) }
    ensures length { IfOk result (λ documents. length documents.items ≡ length found.items) }
{
    each(alloc, found, |parts| list_document(alloc, new_edits, parts))
}

/// The documents, with their members and their ids.
fn name_documents(alloc: Global, documents: Vec<Listed>) -> Result<Vec<Named>, Fault>
    ensures named { DecidesEach result (named_in documents.items) }
    ensures length { IfOk result (λ named. length named.items ≡ length documents.items) }
{
    if any_other(&documents) {
        return Err(Fault::Refused(Reason::Member));
    }
    read_ids(alloc, documents)
}

/// Whether some document has a special member that is unknown.
fn any_other(documents: &[Listed]) -> bool
    ensures { result ≡ any_other documents.now }
{
    documents.iter().any(|document| document.parts.has_other)
}

/// Each document with its id.
fn read_ids(alloc: Global, documents: Vec<Listed>) -> Result<Vec<Named>, Fault>
    ensures named { DecidesEach result (each_of document_named documents.items) }
    ensures length { IfOk result (λ named. length named.items ≡ length documents.items) }
{
    each(alloc, documents, |document| name_document(alloc, document))
}

/// A document in its shape: an object with an id, and where it comes from elsewhere a revision.
// Inlined, as is `name_document`: parts of some 200 bytes are made where they go.
#[inline(always)]
fn list_document(alloc: Global, new_edits: bool, found: Option<Parts>) -> Result<Listed, Fault>
    ensures { Decides result (document_listed new_edits found) }
{
    let parts = as_document(found)?;
    if parts.id.is_none() {
        return Err(Fault::Refused(Reason::Shape));
    }
    if new_edits {
        return Ok(Listed { parts, path: None });
    }
    list_merged(alloc, parts)
}

/// A document from elsewhere, with the path that it lists.
fn list_merged(alloc: Global, parts: Parts) -> Result<Listed, Fault>
    ensures { Decides result (merged_in parts) }
{
    if !names_revision(&parts) {
        return Err(Fault::Refused(Reason::Shape));
    }
    add_path(alloc, parts)
}

/// Whether a document names its revision, by `_rev` or by a path.
fn names_revision(parts: &Parts) -> bool
    ensures { result ≡ (is_some parts.now.rev || is_some parts.now.revisions) }
{
    parts.rev.is_some() || parts.revisions.is_some()
}

/// A document with its path.
fn add_path(alloc: Global, parts: Parts) -> Result<Listed, Fault>
    ensures { Decides result (with_path parts) }
{
    match find_path(alloc, &parts.revisions) {
        Ok(path) => Ok(Listed { parts, path }),
        Err(fault) => Err(fault),
    }
}

/// The path in `_revisions`, if that is there.
fn find_path(alloc: Global, revisions: &Option<Json>) -> Result<Option<Path>, Fault>
    ensures { Decides result (path_found revisions.now) }
{
    let Some(value) = revisions else {
        return Ok(None);
    };
    match Path::find(alloc, value)? {
        Some(path) => Ok(Some(path)),
        None => Err(Fault::Refused(Reason::Shape)),
    }
}

/// A document with the id that it says.
#[inline(always)]
fn name_document(alloc: Global, document: Listed) -> Result<Named, Fault>
    ensures { Decides result (document_named document) }
{
    let Listed { parts, path } = document;
    let Some(text) = parts.id_text() else {
        return Err(Fault::Refused(Reason::Id));
    };
    let id = read_id(alloc, text)?;
    Ok(Named { id, parts, path })
}

/// The revision from elsewhere that a value reports, with its path.
///
/// # Errors
///
/// A value that reports none is refused by the first of these: [`Reason::Depth`] of its body,
/// [`Reason::Shape`], [`Reason::Member`], [`Reason::Id`], [`Reason::Revision`]. Memory may be
/// refused.
pub fn read_told_merge(alloc: Global, value: Json) -> Result<Merge, Fault>
    ensures { Decides result (merge_told value) }
{
    let found = read_parts(alloc, value)?;
    let listed = list_document(alloc, false, found)?;
    let document = name_known(alloc, listed)?;
    read_merge(alloc, document)
}

/// A document with its id, and with no special member that is unknown.
fn name_known(alloc: Global, document: Listed) -> Result<Named, Fault>
    ensures { Decides result (known_named document) }
{
    if document.parts.has_other {
        return Err(Fault::Refused(Reason::Member));
    }
    name_document(alloc, document)
}

/// The command that writes the documents.
fn read_command(alloc: Global, new_edits: bool, documents: Vec<Named>) -> Result<Command, Fault>
    requires { length documents.items ≤ max_edits }
    ensures { Decides result (command_in new_edits documents.items) }
{
    if new_edits {
        edits(alloc, documents)
    } else {
        merges(alloc, documents)
    }
}

/// The command of new edits.
fn edits(alloc: Global, documents: Vec<Named>) -> Result<Command, Fault>
    requires { length documents.items ≤ max_edits }
    ensures { Decides result (command_in true documents.items) }
{
    let edits = read_edits(alloc, documents)?;
    let Some(command) = Command::edits(edits) else {
        unreachable!()
    };
    Ok(command)
}

/// The command of revisions from elsewhere.
fn merges(alloc: Global, documents: Vec<Named>) -> Result<Command, Fault>
    requires { length documents.items ≤ max_edits }
    ensures { Decides result (command_in false documents.items) }
{
    let merges = read_merges(alloc, documents)?;
    let Some(command) = Command::merges(merges) else {
        unreachable!()
    };
    Ok(command)
}

/// The edit of each document.
fn read_edits(alloc: Global, documents: Vec<Named>) -> Result<Vec<Edit>, Fault>
    ensures edits { DecidesEach result (each_of edit_in documents.items) }
    ensures length { IfOk result (λ edits. length edits.items ≡ length documents.items) }
{
    each(alloc, documents, |document| read_edit(alloc, document))
}

/// The merge of each document.
fn read_merges(alloc: Global, documents: Vec<Named>) -> Result<Vec<Merge>, Fault>
    ensures merges { DecidesEach result (each_of merge_in documents.items) }
    ensures length { IfOk result (λ merges. length merges.items ≡ length documents.items) }
{
    each(alloc, documents, |document| read_merge(alloc, document))
}

/// The edit of a document over the revision that it names.
fn read_edit(alloc: Global, document: Named) -> Result<Edit, Fault>
    ensures { Decides result (edit_in document) }
{
    let Named { id, parts, path: _ } = document;
    match parts.own_revision() {
        Ok(rev) => parts.into_edit(alloc, id, rev),
        Err(reason) => Err(Fault::Refused(reason)),
    }
}

/// The merge of a document's revisions.
fn read_merge(alloc: Global, document: Named) -> Result<Merge, Fault>
    ensures { Decides result (merge_in document) }
{
    let Named { id, parts, path } = document;
    match find_revisions(alloc, &parts, path) {
        Ok(path) => into_merge(alloc, id, path, parts),
        Err(fault) => Err(fault),
    }
}

/// The merge of a path of revisions, the newest of which is this document.
fn into_merge(alloc: Global, id: DocId, path: Path, parts: Parts) -> Result<Merge, Fault>
    ensures { Decides result (Ok (merge_of id path (flag_in parts.deleted) parts.body)) }
{
    let deleted = parts.is_deleted();
    let Ok(body) = Arc::new(alloc, parts.body) else {
        return Err(Fault::Memory);
    };
    Ok(path.into_merge(id, deleted, body))
}

/// The revisions of a document, with the path that it lists.
fn find_revisions(alloc: Global, parts: &Parts, path: Option<Path>) -> Result<Path, Fault>
    ensures { Decides result (revisions_of parts.now.rev path) }
{
    match parts.own_revision() {
        Ok(rev) => name_path(alloc, path, rev),
        Err(reason) => Err(Fault::Refused(reason)),
    }
}

/// The path that is listed, whose newest is the revision where that is named, or the revision alone.
fn name_path(alloc: Global, path: Option<Path>, rev: Option<RevId>) -> Result<Path, Fault>
    ensures { Decides result (path_named path rev) }
{
    let Some(path) = path else {
        return path_alone(alloc, rev);
    };
    let Some(rev) = rev else {
        return Ok(path);
    };
    if path.newest() != rev {
        return Err(Fault::Refused(Reason::Revision));
    }
    Ok(path)
}

/// The path of the revision alone, if there is one.
fn path_alone(alloc: Global, rev: Option<RevId>) -> Result<Path, Fault>
    ensures { Decides result (path_named None rev) }
{
    match rev {
        Some(rev) => Ok(Path::alone(alloc, rev)?),
        None => Err(Fault::Refused(Reason::Shape)),
    }
}
