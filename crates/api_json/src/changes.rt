//! The changes, as answers write them.
ghost use Rattle.std.specs.Prelude.{◌≡◌, ◌≤◌, ◌++◌, length, IfOk, string_bytes};
ghost use Rattle.serde_json.specs.Written.{compact_text};
ghost use Rattle.api_json.specs.Changes.{before_id, feed_line, leaves_data, named_rev_data, page_data, row_data, rows_data};

use crate::frame::Frame;
use crate::list::append_list;
use crate::numbers::digits_len;
use document_json::{list_len, put_string, quoted_text, rev_len, sum_len};
use queries::{ChangesPage, Row};
use revision_id::RevId;
use std::alloc::{AllocError, Global};

/// What `{"rev":}` writes round a revision.
const ROUND_REV: usize = 8;

/// What `{"changes":,"seq":}` writes round the parts of a row.
const ROUND_ROW: usize = 19;

/// What `{"last_seq":,"pending":,"results":}` writes round the parts of a page.
const ROUND_PAGE: usize = 35;

/// The text of a revision, as the member `rev` of an object.
pub(crate) fn named_rev_text(alloc: Global, rev: &RevId) -> Result<String, AllocError>
    ensures { IfOk result (λ text. string_bytes text ≡ compact_text (named_rev_data rev.now)) }
{
    let rev = rev.text(alloc)?;
    let mut text = String::from_str(alloc, r#"{"rev":"#)?;
    put_string(&mut text, alloc, rev.as_str())?;
    text.push_str("}")?;
    Ok(text)
}

/// Writes the leaves of a document behind a text.
fn append_leaves(alloc: Global, text: String, revs: &[RevId]) -> Result<String, AllocError>
    ensures { IfOk result (λ longer. string_bytes longer
        ≡ string_bytes text ++ compact_text (leaves_data revs.now)) }
{
    append_list(text, revs, |rev| named_rev_text(alloc, rev))
}

/// What comes between the changes of a row and its id.
fn before_id(deleted: bool) -> &'static str
    ensures { result.now ≡ before_id deleted }
{
    if deleted {
        r#","deleted":true,"id":"#
    } else {
        r#","id":"#
    }
}

/// The text of a document at its last update.
pub fn row_text(alloc: Global, row: &Row) -> Result<String, AllocError>
    ensures text { IfOk result (λ text. string_bytes text ≡ compact_text (row_data row.now)) }
{
    let front = String::from_str(alloc, r#"{"changes":"#)?;
    let mut text = append_leaves(alloc, front, &row.changes)?;
    text.push_str(before_id(row.deleted))?;
    put_string(&mut text, alloc, row.id.as_str())?;
    let seq = row.seq;
    let end = format!(in alloc; ",\"seq\":{seq}}}")?;
    text.push_str(end.as_str())?;
    Ok(text)
}

/// A row as a feed gives it: a line of its own.
pub fn feed_line(alloc: Global, row: &Row) -> Result<String, AllocError>
    ensures line { IfOk result (λ text. string_bytes text ≡ feed_line row.now) }
{
    let mut text = row_text(alloc, row)?;
    text.push_str("\n")?;
    Ok(text)
}

/// Writes the list of the rows behind a text.
fn append_rows(alloc: Global, text: String, rows: &[Row]) -> Result<String, AllocError>
    ensures { IfOk result (λ longer. string_bytes longer ≡ string_bytes text ++ compact_text (rows_data rows.now)) }
{
    append_list(text, rows, |row| row_text(alloc, row))
}

/// What the answer of `_changes` has round its rows: before them the last update number and how many rows are left.
pub fn page_frame(alloc: Global, page: &ChangesPage) -> Result<Frame, AllocError>
    ensures frame { IfOk result (λ frame. (string_bytes frame.before ++ compact_text (rows_data page.now.rows)) ++ string_bytes frame.after
        ≡ compact_text (page_data page.now)) }
{
    let last_seq = page.last_seq;
    let pending = page.pending;
    let before = format!(in alloc; "{{\"last_seq\":{last_seq},\"pending\":{pending},\"results\":")?;
    let after = String::from_str(alloc, "}")?;
    Ok(Frame { before, after })
}

/// The answer of `_changes`: the last update number, how many rows are left, and the rows.
pub fn page_text(alloc: Global, page: &ChangesPage) -> Result<String, AllocError>
    ensures { IfOk result (λ text. string_bytes text ≡ compact_text (page_data page.now)) }
{
    let Frame { before, after } = page_frame(alloc, page)?;
    let mut text = append_rows(alloc, before, &page.rows)?;
    text.push_str(after.as_str())?;
    Ok(text)
}

/// The length of a revision, as the member `rev` of an object.
pub(crate) fn named_rev_len(rev: &RevId) -> usize
    ensures len { result ≡ length (compact_text (named_rev_data rev.now)) }
    ensures short { result ≤ 83 }
{
    rev_len(rev) + ROUND_REV
}

/// The length of the leaves of a document.
fn leaves_len(revs: &[RevId]) -> Result<usize, AllocError>
    ensures { IfOk result (λ len. len ≡ length (compact_text (leaves_data revs.now))) }
{
    list_len(revs, |rev| Ok(named_rev_len(rev)))
}

/// The length of the text of a document at its last update. It takes memory for the text of its id.
fn row_len(alloc: Global, row: &Row) -> Result<usize, AllocError>
    ensures { IfOk result (λ len. len ≡ length (compact_text (row_data row.now))) }
{
    let leaves = leaves_len(&row.changes)?;
    let id = quoted_text(alloc, row.id.as_str())?;
    let both = sum_len(leaves, id.len())?;
    let marks = sum_len(
        before_id(row.deleted).len(),
        digits_len(row.seq) + ROUND_ROW,
    )?;
    sum_len(both, marks)
}

/// The length of the list of the rows.
fn rows_len(alloc: Global, rows: &[Row]) -> Result<usize, AllocError>
    ensures { IfOk result (λ len. len ≡ length (compact_text (rows_data rows.now))) }
{
    list_len(rows, |row| row_len(alloc, row))
}

/// The length of the answer of `_changes`.
///
/// # Errors
///
/// Out of memory, or the length is more than `usize::MAX`.
pub fn page_len(alloc: Global, page: &ChangesPage) -> Result<usize, AllocError>
    ensures len { IfOk result (λ len. len ≡ length (compact_text (page_data page.now))) }
{
    let rows = rows_len(alloc, &page.rows)?;
    let numbers = digits_len(page.last_seq) + digits_len(page.pending) + ROUND_PAGE;
    sum_len(rows, numbers)
}
