//! What is asked of changes.
ghost use Rattle.std.specs.Prelude.{◌≡◌, IfOk, OnOk, false};
ghost use Rattle.std.specs.BTreeMap.{get};
ghost use Rattle.std.specs.Ordering.{is_eq};
ghost use Rattle.model.specs.Command.{Id, names};
ghost use Rattle.replicator.specs.Asked.{Asked, asked_in, revs_asked, with_row};
ghost use Rattle.replicator.specs.Gathered.{Holds};

use commands::{AskedRevisions, NamedRevisions};
use document_id::DocId;
use queries::Row;
use revision_id::RevId;
use std::alloc::{AllocError, Global};
use std::collections::BTreeMap;

/// The revisions of all rows, by their documents.
pub(crate) fn asked_of(alloc: Global, rows: &[Row]) -> Result<NamedRevisions, AllocError>
    ensures { IfOk result (λ asked. asked ≡ asked_in rows.now) }
{
    let mut asked = BTreeMap::new(alloc);
    for row in rows {
        add_row(alloc, &mut asked, row)?;
    }
    named(alloc, asked)
}

/// Adds the revisions of one more row.
fn add_row(
    alloc: Global,
    asked: &mut BTreeMap<DocId, Vec<RevId>>,
    row: &Row,
) -> Result<(), AllocError>
    ensures { OnOk result ((m : Asked) → Holds asked.old m → Holds asked.new (with_row m row.now)) }
{
    let mut revisions = take_revisions(alloc, asked, &row.id);
    revisions.extend_from_slice(&row.changes)?;
    let id = row.id.share()?;
    let Ok(_none) = asked.insert(id, revisions) else {
        return Err(AllocError);
    };
    Ok(())
}

/// Takes the revisions of a document out.
fn take_revisions(alloc: Global, asked: &mut BTreeMap<DocId, Vec<RevId>>, id: &DocId) -> Vec<RevId>
    ensures revisions { (m : Asked) → Holds asked.old m → result.items ≡ revs_asked m id.now }
    ensures others { (q : Id) → is_eq (names.cmp id.now q) ≡ false
        → get names.cmp asked.new q ≡ get names.cmp asked.old q }
{
    asked.remove(id).unwrap_or(Vec::new(alloc))
}

/// The revisions in the order of the ids.
fn named(alloc: Global, asked: BTreeMap<DocId, Vec<RevId>>) -> Result<NamedRevisions, AllocError>
    ensures { IfOk result (λ named. (m : Asked) → Holds asked m → named ≡ m) }
{
    let mut documents = Vec::with_capacity(alloc, asked.len())?;
    for (id, revisions) in asked {
        documents.push(AskedRevisions { id, revisions })?;
    }
    Ok(NamedRevisions::new(documents).unwrap())
}
