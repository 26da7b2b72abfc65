//! Documents, as they are written.
ghost use Rattle.std.specs.Prelude.{◌≡◌, option_map, IfOk, OnOk, string_bytes};
ghost use Rattle.serde_json.specs.Written.{compact_text};
ghost use Rattle.document_json.specs.MembersText.{Writes};
ghost use Rattle.document_json.specs.Written.{document_data, document_of, flag_member, infos_member, merge_data, revisions_member, revs_member, special_members};

use crate::members_text::MembersText;
use crate::revisions_value::{infos_value, revisions_value, revs_value};
use crate::special::{text_around, text_before};
use commands::Merge;
use model::Status;
use queries::Document;
use revision_id::RevId;
use serde_json::Value;
use std::alloc::{AllocError, Global};

/// Room for `_id`, `_rev` and `_deleted` beside the bytes of the id, and for the brackets.
const SPECIAL_ROOM: usize = 80;

/// Writes `_deleted`, unless it is false.
fn push_deleted(special: &mut MembersText, alloc: Global, deleted: bool) -> Result<(), AllocError>
    ensures { OnOk result (Writes special.old special.new (flag_member deleted)) }
{
    if deleted {
        special.push(alloc, "_deleted", &Value::Bool(true))
    } else {
        Ok(())
    }
}

/// Writes revisions under a name, unless there are none.
fn push_revs(
    special: &mut MembersText,
    alloc: Global,
    name: &str,
    revs: &[RevId],
) -> Result<(), AllocError>
    ensures { OnOk result (Writes special.old special.new (revs_member name.now revs.now)) }
{
    if revs.is_empty() {
        return Ok(());
    }
    let value = revs_value(alloc, revs)?;
    special.push(alloc, name, &value)
}

/// Writes `_revisions`, where they were asked for.
fn push_revisions(
    special: &mut MembersText,
    alloc: Global,
    revisions: &Option<Vec<RevId>>,
) -> Result<(), AllocError>
    ensures { OnOk result (Writes special.old special.new
        (revisions_member (option_map (λ revs. revs.items) revisions.now))) }
{
    let Some(revs) = revisions else {
        return Ok(());
    };
    let value = revisions_value(alloc, revs)?;
    special.push(alloc, "_revisions", &value)
}

/// Writes `_revs_info`, where it was asked for.
fn push_infos(
    special: &mut MembersText,
    alloc: Global,
    infos: &Option<Vec<(RevId, Status)>>,
) -> Result<(), AllocError>
    ensures { OnOk result (Writes special.old special.new
        (infos_member (option_map (λ infos. infos.items) infos.now))) }
{
    let Some(infos) = infos else {
        return Ok(());
    };
    let value = infos_value(alloc, infos)?;
    special.push(alloc, "_revs_info", &value)
}

/// Writes the special members of a document, in the order of their names.
fn push_special(
    special: &mut MembersText,
    alloc: Global,
    document: &Document,
) -> Result<(), AllocError>
    ensures { OnOk result (Writes special.old special.new (special_members document.now)) }
{
    let rev = document.rev.text(alloc)?;
    push_revs(special, alloc, "_conflicts", &document.conflicts)?;
    push_deleted(special, alloc, document.deleted)?;
    push_revs(
        special,
        alloc,
        "_deleted_conflicts",
        &document.deleted_conflicts,
    )?;
    special.push_string(alloc, "_id", document.id.as_str())?;
    special.push_string(alloc, "_rev", rev.as_str())?;
    push_revisions(special, alloc, &document.revisions)?;
    push_infos(special, alloc, &document.revs_info)?;
    Ok(())
}

/// The text of a document, with what was asked of it.
pub fn document_text(alloc: Global, document: &Document) -> Result<String, AllocError>
    ensures { IfOk result (λ text. string_bytes text ≡ compact_text (document_data document.now)) }
{
    let room = document.id.as_str().len().saturating_add(SPECIAL_ROOM);
    let mut special = text_before(alloc, &document.body, room)?;
    push_special(&mut special, alloc, document)?;
    text_around(special, &document.body)
}

/// The text of a revision from elsewhere, with its path.
pub fn merge_text(alloc: Global, merge: &Merge) -> Result<String, AllocError>
    ensures { IfOk result (λ text. string_bytes text ≡ compact_text (merge_data merge.now)) }
{
    let document = document_of(alloc, merge)?;
    document_text(alloc, &document)
}

/// A revision from elsewhere as a document with its path.
pub(crate) fn document_of(alloc: Global, merge: &Merge) -> Result<Document, AllocError>
    ensures { IfOk result (λ document. document ≡ document_of merge.now) }
{
    let path = merge.path();
    Ok(Document {
        id: merge.id().share()?,
        rev: path[0],
        deleted: merge.deleted(),
        body: merge.body().clone()?,
        revisions: Some(Vec::from_slice(alloc, path)?),
        revs_info: None,
        conflicts: Vec::new(alloc),
        deleted_conflicts: Vec::new(alloc),
    })
}
