//! Which answers can be read.
ghost use Rattle.std.specs.Prelude.{◌≡◌, Some};
ghost use Rattle.std.specs.List.{list_all, list_any};
ghost use Rattle.replicator.specs.Readable.{are_wanted, asked_about, is_among, is_of, is_readable_difference, is_readable_opened, is_readable_page, last_number, path_of, rises_above, tells_of};

use crate::peer::Opened;
use commands::{Merge, NamedRevisions};
use document_id::{DocId, DocIds};
use queries::{ChangesPage, Differences, Row};
use revision_id::RevId;

/// Whether a page of at most `limit` rows can follow this number, where these documents were asked for.
pub(crate) fn is_readable_page(
    ids: &Option<DocIds>,
    since: u64,
    limit: u64,
    page: &ChangesPage,
) -> bool
    ensures { result ≡ is_readable_page ids.now since limit page.now }
{
    rises_above(since, &page.rows)
        && page.rows.len() as u64 <= limit
        && last_number(since, &page.rows) <= page.last_seq
        && are_wanted(ids, &page.rows)
}

/// Whether each row is of one of these documents, or of any where none are named.
fn are_wanted(ids: &Option<DocIds>, rows: &[Row]) -> bool
    ensures { result ≡ are_wanted ids.now rows.now }
{
    match ids {
        Some(ids) => are_named(ids, rows),
        None => true,
    }
}

/// Whether each row is of one of these documents.
fn are_named(ids: &DocIds, rows: &[Row]) -> bool
    ensures { result ≡ are_wanted (Some ids.now) rows.now }
{
    rows.iter().all(|row| ids.contains(&row.id))
}

/// Whether the numbers of the rows rise, from above this one.
fn rises_above(since: u64, rows: &[Row]) -> bool
    ensures { result ≡ rises_above since rows.now }
{
    let mut last = since;
    for row in rows {
        if row.seq <= last {
            return false;
        }
        last = row.seq;
    }
    true
}

/// The number of the last row, or this one where there is none.
fn last_number(since: u64, rows: &[Row]) -> u64
    ensures { result ≡ last_number since rows.now }
{
    let mut last = since;
    for row in rows {
        last = row.seq;
    }
    last
}

/// Whether each revision that is missing was asked about under its id.
pub(crate) fn is_readable_difference(asked: &NamedRevisions, differences: &Differences) -> bool
    ensures { result ≡ is_readable_difference asked.now differences.now }
{
    differences.documents().iter().all(|(id, difference)| are_among(
        asked_about(asked, id),
        &difference.missing,
    ))
}

/// The revisions that were asked about under an id, and none where it was not named.
fn asked_about<'a>(asked: &'a NamedRevisions, id: &DocId) -> &'a [RevId]
    ensures { result.now ≡ asked_about asked.now id.now }
{
    let documents = asked.documents();
    match documents.binary_search_by(|asked| asked.id.cmp(id)) {
        Ok(place) => {
            let found = &documents[place];
            &found.revisions
        }
        Err(_) => &[],
    }
}

/// Whether each revision that is missing is one of these.
fn are_among(revs: &[RevId], missing: &[RevId]) -> bool
    ensures { result ≡ list_all (is_among revs.now) missing.now }
{
    missing.iter().all(|rev| revs.contains(rev))
}

/// Whether each revision that was asked for is reported, and no other document is given.
pub(crate) fn is_readable_opened(id: &DocId, revs: &[RevId], opened: &Opened) -> bool
    ensures { result ≡ is_readable_opened id.now revs.now opened.now }
{
    tells_of_all(revs, &opened.revisions) && are_of(id, &opened.revisions)
}

fn tells_of_all(revs: &[RevId], opened: &[Result<Merge, RevId>]) -> bool
    ensures { result ≡ list_all (λ rev. list_any (tells_of rev) opened.now) revs.now }
{
    revs.iter().all(|rev| is_told_of(rev, opened))
}

fn is_told_of(rev: &RevId, opened: &[Result<Merge, RevId>]) -> bool
    ensures { result ≡ list_any (tells_of rev.now) opened.now }
{
    opened.iter().any(|opened| tells_of(rev, opened))
}

/// Whether a revision is in the path of a document, or is missing.
fn tells_of(rev: &RevId, opened: &Result<Merge, RevId>) -> bool
    ensures { result ≡ tells_of rev.now opened.now }
{
    match opened {
        Ok(document) => document.path().contains(rev),
        Err(missing) => missing == rev,
    }
}

fn are_of(id: &DocId, opened: &[Result<Merge, RevId>]) -> bool
    ensures { result ≡ list_all (is_of id.now) opened.now }
{
    opened.iter().all(|opened| is_of(id, opened))
}

/// Whether what is given is the document of this id.
fn is_of(id: &DocId, opened: &Result<Merge, RevId>) -> bool
    ensures { result ≡ is_of id.now opened.now }
{
    match opened {
        Ok(document) => document.id() == id,
        Err(_) => true,
    }
}
