//! Merges, as lines write them.
ghost use Rattle.std.specs.Prelude.{◌≡◌, ◌++◌, ◌∷◌, Some, IfSome, OnOk, codes, string_bytes};
ghost use Rattle.serde_json.specs.Data.{member, no_members, object};
ghost use Rattle.serde_json.specs.Written.{compact_text};
ghost use Rattle.model.specs.Command as model;
ghost use Rattle.model.specs.Command.{IsMerge};
ghost use Rattle.history_json.specs.Commands.{merge_data, write_members};
ghost use Rattle.document_json.specs.Written.{revs_data};

use crate::bulk::{Write, put_write, take_write};
use crate::line_value::{LineValue, put_list, read_list};
use commands::Merge;
use document_id::DocId;
use json_profile::{Body, Json};
use revision_id::RevId;
use std::alloc::{AllocError, Global};

impl LineValue for Merge {
    ghost data_of = { merge_data };

    ghost is_within = { IsMerge };

    fn put(&self, text: &mut String, alloc: Global) -> Result<(), AllocError> {
        put_merge(
            text,
            alloc,
            self.id(),
            self.path(),
            self.deleted(),
            self.body(),
        )
    }

    fn read(alloc: Global, value: Json) -> Result<Option<Merge>, AllocError> {
        let Some(mut members) = value.into_object() else {
            return Ok(None);
        };
        let Some(path) = members.take("path") else {
            return Ok(None);
        };
        let Some(path) = read_list::<RevId>(alloc, path)? else {
            return Ok(None);
        };
        let Some(write) = take_write(alloc, members)? else {
            return Ok(None);
        };
        Ok(merge_of(write, path))
    }
}

/// Writes a merge of these parts.
fn put_merge(
    text: &mut String,
    alloc: Global,
    id: &DocId,
    path: &[RevId],
    deleted: bool,
    body: &Body,
) -> Result<(), AllocError>
    ensures { OnOk result (string_bytes text.new ≡ string_bytes text.old
        ++ compact_text (object (write_members id.now deleted body.now (member (codes "path") (revs_data path.now) no_members)))) }
{
    put_write(text, alloc, id, deleted, body)?;
    text.push_str(",\"path\":")?;
    put_list(text, alloc, path)?;
    text.push_str("}")
}

/// The merge of this path, if it is one.
fn merge_of(write: Write, path: Vec<RevId>) -> Option<Merge>
    ensures within { IfSome result IsMerge }
    ensures found { (m : model.Merge) → IsMerge m → path.items ≡ m.newest ∷ m.older → write ≡ (m.id, m.deleted, m.body) → result ≡ Some m }
{
    let merge = Merge::new(write.id, path, write.deleted, write.body)?;
    let _recalled = merge.path();
    Some(merge)
}
