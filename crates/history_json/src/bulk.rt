//! Bulks of edits and of merges, and what both are written with.
ghost use Rattle.std.specs.Prelude.{◌≡◌, ◌++◌, Bool, List, Some, true, false, map, IfOk, IfSome, OnOk, option_and_then, string_bytes};
ghost use Rattle.serde_json.specs.Data.{Members, array, boolean, object, string};
ghost use Rattle.serde_json.specs.Find.{as_bool};
ghost use Rattle.serde_json.specs.View.{items_of};
ghost use Rattle.serde_json.specs.Written.{compact_text};
ghost use Rattle.model.specs.Body.{IsBody};
ghost use Rattle.model.specs.Command as model;
ghost use Rattle.history_json.specs.Commands.{bulk_data, edit_data, merge_data, write_members};
ghost use Rattle.history_json.specs.Fronts.{write_front};

use crate::bodies::read_body;
use crate::line_value::{LineValue, put_list, read_list};
use commands::{Command, Edit, Merge};
use document_id::DocId;
use json_profile::{Body, Json, Object};
use std::alloc::{AllocError, Global};
use std::marker::Model;
use std::sync::Arc;

/// What an edit and a merge say of a revision.
#[derive(Drop)]
pub(crate) struct Write {
    pub(crate) id: DocId,
    pub(crate) deleted: bool,
    pub(crate) body: Arc<Body>,
}

impl Model for Write {
    ghost use Rattle.std.specs.Prelude.{Bool};
    ghost use Rattle.std.specs.Arc.{arc_value};
    ghost use Rattle.std.specs.Coded.{codes};
    ghost use Rattle.model.specs.Body.{Body};
    ghost use Rattle.model.specs.Command.{Id};
    ghost use Rattle.model.specs.JsonCode.{coded_members};

    ghost Value = { Id × Bool × Body };

    ghost coded = { Prim.hlevel (codes, coded_members) };

    ghost view = { λ w. (w.id, w.deleted, arc_value w.body) };
}

/// Writes what an edit and a merge begin with.
pub(crate) fn put_write(
    text: &mut String,
    alloc: Global,
    id: &DocId,
    deleted: bool,
    body: &Body,
) -> Result<(), AllocError>
    ensures { OnOk result (string_bytes text.new ≡ string_bytes text.old ++ write_front id.now deleted body.now) }
{
    let body = body.text();
    write!(text, "{{\"body\":{body},\"deleted\":{deleted},\"id\":")?;
    id.put(text, alloc)
}

/// Takes what an edit and a merge begin with.
pub(crate) fn take_write(alloc: Global, mut members: Object) -> Result<Option<Write>, AllocError>
    ensures within { IfOk result (λ found. IfSome found (λ w. model.IsId w.0 × IsBody w.2)) }
    ensures found { IfOk result (λ found. (id : model.Id) (deleted : Bool) (body more : Members) → model.IsId id → IsBody body
        → members ≡ write_members id deleted body more → found ≡ Some (id, deleted, body)) }
{
    let (Some(body), Some(deleted), Some(id)) = (
        members.take("body"),
        members.take("deleted"),
        members.take("id"),
    ) else {
        return Ok(None);
    };
    read_write(alloc, id, deleted, body)
}

/// What these members say.
fn read_write(
    alloc: Global,
    id: Json,
    deleted: Json,
    body: Json,
) -> Result<Option<Write>, AllocError>
    ensures within { IfOk result (λ found. IfSome found (λ w. model.IsId w.0 × IsBody w.2)) }
    ensures found { IfOk result (λ found. (i : model.Id) (d : Bool) (b : Members) → model.IsId i → IsBody b
        → id ≡ string i → deleted ≡ boolean d → body ≡ object b → found ≡ Some (i, d, b)) }
{
    let Some(deleted) = deleted.as_bool() else {
        return Ok(None);
    };
    let Some(id) = DocId::read(alloc, id)? else {
        return Ok(None);
    };
    let Some(body) = read_body(alloc, body)? else {
        return Ok(None);
    };
    let _recalled = body.text();
    Ok(Some(Write { id, deleted, body }))
}

/// Writes a bulk.
pub(crate) fn put_bulk<T: LineValue>(
    text: &mut String,
    alloc: Global,
    writes: &[T],
    new_edits: bool,
) -> Result<(), AllocError>
    ensures { OnOk result (string_bytes text.new
        ≡ string_bytes text.old ++ compact_text (bulk_data (map T.data_of writes.now) new_edits)) }
{
    text.push_str("{\"bulk\":")?;
    put_list(text, alloc, writes)?;
    write!(text, ",\"new_edits\":{new_edits}}}")
}

/// The bulk of these edits or merges.
pub(crate) fn read_bulk(
    alloc: Global,
    writes: Json,
    new_edits: Option<Json>,
) -> Result<Option<Command>, AllocError>
    ensures edits { IfOk result (λ found. (edits : List model.Edit) → model.IsCommand (model.Edits edits)
        → writes ≡ array (items_of (map edit_data edits)) → option_and_then as_bool new_edits ≡ Some true
        → found ≡ Some (model.Edits edits)) }
    ensures merges { IfOk result (λ found. (merges : List model.Merge) → model.IsCommand (model.Merges merges)
        → writes ≡ array (items_of (map merge_data merges)) → option_and_then as_bool new_edits ≡ Some false
        → found ≡ Some (model.Merges merges)) }
{
    let Some(new_edits) = new_edits else {
        return Ok(None);
    };
    match new_edits.as_bool() {
        Some(true) => read_edits(alloc, writes),
        Some(false) => read_merges(alloc, writes),
        None => Ok(None),
    }
}

fn read_edits(alloc: Global, writes: Json) -> Result<Option<Command>, AllocError>
    ensures { IfOk result (λ found. (edits : List model.Edit) → model.IsCommand (model.Edits edits)
        → writes ≡ array (items_of (map edit_data edits)) → found ≡ Some (model.Edits edits)) }
{
    let Some(edits) = read_list::<Edit>(alloc, writes)? else {
        return Ok(None);
    };
    Ok(Command::edits(edits))
}

fn read_merges(alloc: Global, writes: Json) -> Result<Option<Command>, AllocError>
    ensures { IfOk result (λ found. (merges : List model.Merge) → model.IsCommand (model.Merges merges)
        → writes ≡ array (items_of (map merge_data merges)) → found ≡ Some (model.Merges merges)) }
{
    let Some(merges) = read_list::<Merge>(alloc, writes)? else {
        return Ok(None);
    };
    Ok(Command::merges(merges))
}
