//! The changes feed: each document once, at its last update.
ghost use Rattle.std.specs.Prelude.{◌≡◌, ◌==◌, ℕ, Some, IfOk, length, map, take, if◌then◌else◌};
ghost use Rattle.std.specs.Map.Iter.{ShowsInOrder, deref_pair};
ghost use Rattle.model.specs.Command.{Id};
ghost use Rattle.model.specs.Database.{Record as Stored};
ghost use Rattle.model.specs.History.{now};
ghost use Rattle.model.specs.Changes.{changed_since, changes_page, every_id, last_seq_of, listed as listed_in, row as row_of, rows_since, wanted_by};
ghost use Rattle.changes_feed.specs.Followed.{most_of};

use cow_index::{Range, Shared};
use document_id::{DocId, DocIds};
use model::Style;
use queries::{ChangesPage, Row};
use revision_id::RevId;
use revision_tree::RevTree;
use snapshots::{Record, Version};
use std::alloc::{AllocError, Global};

/// The first rows above `since` in the order of the updates, at most `limit` of them where there is
/// a limit. A limit of 0 acts as 1. It costs the rows that it gives and two ways down the index.
pub fn changes(
    alloc: Global,
    version: &Version,
    since: u64,
    limit: Option<u64>,
    style: Style,
) -> Result<ChangesPage, AllocError>
    ensures page { IfOk result (λ page. page ≡ changes_page every_id (now version.now) since limit style) }
{
    let count = version.database().count_changed_since(since);
    let rows = first_rows(alloc, version, since, most_rows(limit, count), style)?;
    let pending = count - rows.len() as u64;
    Ok(ChangesPage {
        last_seq: page_end(version, since, &rows, pending),
        pending,
        rows,
    })
}

/// The same of some documents: the limit and what is left count their rows alone. It costs a look at each of the
/// documents, or at each that changed, whichever are fewer.
///
/// CouchDB: `POST /{db}/_changes`, "doc_ids".
pub fn changes_among(
    alloc: Global,
    version: &Version,
    since: u64,
    limit: Option<u64>,
    style: Style,
    ids: &DocIds,
) -> Result<ChangesPage, AllocError>
    ensures page { IfOk result (λ page. page ≡ changes_page (wanted_by (Some ids.now)) (now version.now) since limit style) }
{
    let changed = version.database().changed_among(alloc, since, ids)?;
    let count = changed.len();
    let rows = rows_of(alloc, changed.iter(), most_rows(limit, count), style)?;
    let pending = count - rows.len() as u64;
    Ok(ChangesPage {
        last_seq: page_end(version, since, &rows, pending),
        pending,
        rows,
    })
}

/// The changes of the documents that are wanted: all, or those of a set.
pub(crate) fn wanted_changes(
    alloc: Global,
    version: &Version,
    since: u64,
    limit: Option<u64>,
    style: Style,
    ids: &Option<DocIds>,
) -> Result<ChangesPage, AllocError>
    ensures { IfOk result (λ page. page ≡ changes_page (wanted_by ids.now) (now version.now) since limit style) }
{
    match ids {
        Some(ids) => changes_among(alloc, version, since, limit, style, ids),
        None => changes(alloc, version, since, limit, style),
    }
}

/// At most how many of `count` rows are given.
fn most_rows(limit: Option<u64>, count: u64) -> u64
    ensures { result ≡ most_of limit count }
{
    match limit {
        Some(limit) => limit.max(1),
        None => count,
    }
}

/// The number to go on from after some rows, where `pending` are left.
fn page_end(version: &Version, since: u64, rows: &[Row], pending: u64) -> u64
    ensures { result ≡ (if pending == 0 then (now version.now).update_seq else last_seq_of since rows.now) }
{
    if pending == 0 {
        return version.database().documents().update_seq();
    }
    last_seq(rows, since)
}

/// The number of the last row, or `since` where there is none.
pub(crate) fn last_seq(rows: &[Row], since: u64) -> u64
    ensures { result ≡ last_seq_of since rows.now }
{
    match rows.last() {
        Some(last) => last.seq,
        None => since,
    }
}

/// The first rows above `since` of the documents that are wanted, at most `most` of them.
pub(crate) fn wanted_rows(
    alloc: Global,
    version: &Version,
    since: u64,
    most: u64,
    style: Style,
    ids: &Option<DocIds>,
) -> Result<Vec<Row>, AllocError>
    ensures { IfOk result (λ rows. rows.items ≡ take most (rows_since (wanted_by ids.now) (now version.now) since style)) }
{
    match ids {
        Some(ids) => first_rows_among(alloc, version, since, most, style, ids),
        None => first_rows(alloc, version, since, most, style),
    }
}

/// How many of the documents that are wanted, all or those of a set, have changed after `since`. It takes no memory; of a
/// set it costs a look at each of the documents, or at each that changed, whichever are fewer.
pub fn count_wanted(version: &Version, since: u64, ids: &Option<DocIds>) -> u64
    ensures { result ≡ length (changed_since (wanted_by ids.now) (now version.now) since) }
{
    let database = version.database();
    match ids {
        Some(ids) => database.count_changed_among(since, ids),
        None => database.count_changed_since(since),
    }
}

/// The first rows above `since`, at most `most` of them.
fn first_rows(
    alloc: Global,
    version: &Version,
    since: u64,
    most: u64,
    style: Style,
) -> Result<Vec<Row>, AllocError>
    ensures { IfOk result (λ rows. rows.items ≡ take most (rows_since every_id (now version.now) since style)) }
{
    rows_of(alloc, version.database().changed_since(since), most, style)
}

/// The same of some documents.
fn first_rows_among(
    alloc: Global,
    version: &Version,
    since: u64,
    most: u64,
    style: Style,
    ids: &DocIds,
) -> Result<Vec<Row>, AllocError>
    ensures { IfOk result (λ rows. rows.items ≡ take most (rows_since (wanted_by (Some ids.now)) (now version.now) since style)) }
{
    let changed = version.database().changed_among(alloc, since, ids)?;
    rows_of(alloc, changed.iter(), most, style)
}

/// The rows of the first changes, at most `most` of them.
fn rows_of(
    alloc: Global,
    changes: Range<'_, u64, (DocId, Shared<Record>)>,
    most: u64,
    style: Style,
) -> Result<Vec<Row>, AllocError>
    requires { ShowsInOrder (deref_pair {K = ℕ} {X = Id × Stored}) }
    ensures { IfOk result (λ rows. rows.items ≡ take most (map (row_of style) changes.entry)) }
{
    let mut rows = Vec::new(alloc);
    for (seq, changed) in changes.take(most as usize) {
        rows.push(row(alloc, *seq, &changed.0, changed.1.get(), style)?)?;
    }
    Ok(rows)
}

fn row(
    alloc: Global,
    seq: u64,
    id: &DocId,
    stored: &Record,
    style: Style,
) -> Result<Row, AllocError>
    ensures { IfOk result (λ row. row ≡ row_of style (seq, (id.now, stored.now))) }
{
    let tree = stored.tree();
    Ok(Row {
        seq,
        id: id.share()?,
        changes: listed(alloc, tree, style)?,
        deleted: tree.winner().deleted,
    })
}

/// The winner, or all leaves.
fn listed(alloc: Global, tree: &RevTree, style: Style) -> Result<Vec<RevId>, AllocError>
    ensures { IfOk result (λ revs. revs.items ≡ listed_in style tree.now) }
{
    match style {
        Style::MainOnly => Vec::from_slice(alloc, &[tree.winner().rev]),
        Style::AllDocs => tree.leaves(alloc),
    }
}
