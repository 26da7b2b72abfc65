//! Changes with more leaves than can be asked about at once.
ghost use Rattle.std.specs.Prelude.{◌≡◌, ◌≤◌, length, map, max};
ghost use Rattle.replicator.specs.Readable.{last_number};
ghost use Rattle.replicator_run.specs.Skipped.{first_rows, without_many, IsAskedLen, IsAskedOf};

use crate::watch::Watch;
use queries::{ChangesPage, Row};

/// The most leaves of one document that are asked about: one request holds so many, whatever its id is.
const MAX_OF_ONE: usize = 22_700;

/// The most leaves of several documents that are asked about at once: one request holds so many of a hundred.
pub(crate) const MAX_OF_MORE: usize = 16_000;

/// The first rows of a page, as many as can be asked about at once, and nothing of a document that can't,
/// which is reported.
pub(crate) fn asked_of<W: Watch>(watch: &W, page: ChangesPage) -> ChangesPage
    ensures { IsAskedOf page result }
{
    let mut page = page;
    skip_many(watch, &mut page.rows);
    let len = asked_len(&page.rows);
    first_rows(page, len)
}

/// Takes the leaves of the documents away that have too many, which is reported.
fn skip_many<W: Watch>(watch: &W, rows: &mut [Row])
    ensures { rows.new ≡ map without_many rows.old }
{
    for row in rows.iter_mut() {
        skip_leaves(watch, row);
    }
}

fn skip_leaves<W: Watch>(watch: &W, row: &mut Row)
    ensures { row.new ≡ without_many row.old }
{
    if row.changes.len() <= MAX_OF_ONE {
        return;
    }
    watch.skipped_leaves(&row.id, row.changes.len());
    row.changes.truncate(0);
}

/// How many of the rows are asked about at once.
fn asked_len(rows: &[Row]) -> usize
    ensures { IsAskedLen rows.now result }
{
    let mut leaves = 0;
    let mut len = 0;
    for row in rows {
        if row.changes.len() > MAX_OF_MORE - leaves {
            return at_least_one(len);
        }
        leaves += row.changes.len();
        len += 1;
    }
    len
}

fn at_least_one(len: usize) -> usize
    ensures { result ≡ max len 1 }
{
    if len == 0 { 1 } else { len }
}

/// The page up to the row of this count.
fn first_rows(page: ChangesPage, len: usize) -> ChangesPage
    requires { len ≤ length page.rows }
    ensures { result ≡ first_rows len page }
{
    let mut page = page;
    let more = page.rows.len() - len;
    if more == 0 {
        return page;
    }
    page.rows.truncate(len);
    page.last_seq = last_number(&page.rows);
    page.pending = page.pending.saturating_add(more as u64);
    page
}

/// The number of the last row, or 0 where there is none.
fn last_number(rows: &[Row]) -> u64
    ensures { result ≡ last_number 0 rows.now }
{
    let mut last = 0;
    for row in rows {
        last = row.seq;
    }
    last
}
