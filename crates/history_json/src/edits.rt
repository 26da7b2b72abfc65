//! Edits, as lines write them.
ghost use Rattle.std.specs.Prelude.{◌≡◌, ◌++◌, true, Some, IfOk, IfSome, OnOk, option_copied, string_bytes};
ghost use Rattle.serde_json.specs.Data.{object};
ghost use Rattle.serde_json.specs.Written.{compact_text, members_text};
ghost use Rattle.model.specs.Command.{IsEdit};
ghost use Rattle.model.specs.Revision.{Rev, IsRev};
ghost use Rattle.document_json.specs.Written.{rev_data};
ghost use Rattle.history_json.specs.Commands.{edit_data, rev_member, write_members};

use crate::bulk::{Write, put_write, take_write};
use crate::line_value::LineValue;
use commands::Edit;
use document_id::DocId;
use json_profile::{Body, Json};
use revision_id::RevId;
use std::alloc::{AllocError, Global};

impl LineValue for Edit {
    ghost data_of = { edit_data };

    ghost is_within = { IsEdit };

    fn put(&self, text: &mut String, alloc: Global) -> Result<(), AllocError> {
        put_edit(
            text,
            alloc,
            &self.id,
            self.named.as_ref(),
            self.deleted,
            &self.body,
        )
    }

    fn read(alloc: Global, value: Json) -> Result<Option<Edit>, AllocError> {
        let Some(mut members) = value.into_object() else {
            return Ok(None);
        };
        let named = members.take("rev");
        let Some(write) = take_write(alloc, members)? else {
            return Ok(None);
        };
        match named {
            Some(named) => edit_over(alloc, write, named),
            None => Ok(Some(edit_of(write, None))),
        }
    }
}

/// Writes an edit of these parts.
fn put_edit(
    text: &mut String,
    alloc: Global,
    id: &DocId,
    named: Option<&RevId>,
    deleted: bool,
    body: &Body,
) -> Result<(), AllocError>
    ensures { OnOk result (string_bytes text.new ≡ string_bytes text.old
        ++ compact_text (object (write_members id.now deleted body.now (rev_member (option_copied named.entry))))) }
{
    put_write(text, alloc, id, deleted, body)?;
    put_named(text, alloc, named)
}

/// Writes the revision that is named, and the end of an edit.
fn put_named(text: &mut String, alloc: Global, named: Option<&RevId>) -> Result<(), AllocError>
    ensures { OnOk result (string_bytes text.new
        ≡ string_bytes text.old ++ members_text true (rev_member (option_copied named.entry))) }
{
    match named {
        Some(rev) => put_rev(text, alloc, rev),
        None => text.push_str("}"),
    }
}

/// Writes the revision, and the end of an edit.
fn put_rev(text: &mut String, alloc: Global, rev: &RevId) -> Result<(), AllocError>
    ensures { OnOk result (string_bytes text.new ≡ string_bytes text.old ++ members_text true (rev_member (Some rev.now))) }
{
    text.push_str(",\"rev\":")?;
    rev.put(text, alloc)?;
    text.push_str("}")
}

fn edit_of(write: Write, named: Option<RevId>) -> Edit
    ensures { result ≡ record { id = write.0; named = named; deleted = write.1; body = write.2 } }
{
    Edit {
        id: write.id,
        named,
        deleted: write.deleted,
        body: write.body,
    }
}

/// The edit over the revision that a value is.
fn edit_over(alloc: Global, write: Write, named: Json) -> Result<Option<Edit>, AllocError>
    ensures within { IfOk result (λ found. IfSome found (λ e. IfSome e.named IsRev)) }
    ensures write { IfOk result (λ found. IfSome found (λ e. (e.id, e.deleted, e.body) ≡ write)) }
    ensures found { IfOk result (λ found. (rev : Rev) → IsRev rev → named ≡ rev_data rev
        → found ≡ Some (record { id = write.0; named = Some rev; deleted = write.1; body = write.2 })) }
{
    let Some(rev) = RevId::read(alloc, named)? else {
        return Ok(None);
    };
    Ok(Some(edit_of(write, Some(rev))))
}
