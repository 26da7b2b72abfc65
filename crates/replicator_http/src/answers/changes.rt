//! The changes, as an answer reports them.
ghost use Rattle.std.specs.Prelude.{◌≡◌};
ghost use Rattle.document_json.specs.Each.{DecidesEach, each as each_of};
ghost use Rattle.document_json.specs.Steps.{Decides};
ghost use Rattle.replicator_http.specs.Changes.{deleted_in, leaf_in, leaves_in, page_in, page_of, row_in};

use crate::answers::members::{id_under, number_under, rev_under, take_list};
use document_json::{Fault, Reason, each, read_json};
use json_profile::Json;
use queries::{ChangesPage, Row};
use revision_id::RevId;
use std::alloc::Global;

/// Some of the changes, as an answer reports them.
///
/// # Errors
///
/// An answer that is no JSON of the profile is refused as that, and then by the first of these:
/// [`Reason::Shape`], [`Reason::Id`] and [`Reason::Revision`], row by row.
pub fn read_changes(alloc: Global, body: &[u8]) -> Result<ChangesPage, Fault>
    ensures page { Decides result (page_of body.now) }
{
    let value = read_json(alloc, body)?;
    read_page(alloc, value)
}

fn read_page(alloc: Global, value: Json) -> Result<ChangesPage, Fault>
    ensures { Decides result (page_in value) }
{
    let last_seq = number_under(&value, "last_seq")?;
    let pending = number_under(&value, "pending")?;
    let values = take_list(alloc, value, "results")?;
    let rows = read_rows(alloc, values)?;
    Ok(ChangesPage {
        last_seq,
        pending,
        rows,
    })
}

fn read_rows(alloc: Global, values: Vec<Json>) -> Result<Vec<Row>, Fault>
    ensures { DecidesEach result (each_of row_in values.items) }
{
    each(alloc, values, |value| read_row(alloc, value))
}

/// A document at its last update.
fn read_row(alloc: Global, value: Json) -> Result<Row, Fault>
    ensures { Decides result (row_in value) }
{
    let seq = number_under(&value, "seq")?;
    let id = id_under(alloc, &value, "id")?;
    let deleted = read_deleted(&value)?;
    let changes = read_leaves(alloc, value)?;
    Ok(Row {
        seq,
        id,
        changes,
        deleted,
    })
}

/// Whether the winner is deleted. `deleted` may be left out where it is not.
fn read_deleted(value: &Json) -> Result<bool, Reason>
    ensures { result ≡ deleted_in value.now }
{
    let Some(flag) = value.value().get("deleted") else {
        return Ok(false);
    };
    match flag.as_bool() {
        Some(deleted) => Ok(deleted),
        None => Err(Reason::Shape),
    }
}

/// The leaves of a row.
fn read_leaves(alloc: Global, value: Json) -> Result<Vec<RevId>, Fault>
    ensures { DecidesEach result (leaves_in value) }
{
    let values = take_list(alloc, value, "changes")?;
    each(alloc, values, |value| Ok(read_leaf(&value)?))
}

fn read_leaf(value: &Json) -> Result<RevId, Reason>
    ensures { result ≡ leaf_in value.now }
{
    rev_under(value, "rev")
}
