//! The targets of requests.
ghost use Rattle.std.specs.Prelude.{◌≡◌, IfOk, string_bytes};
ghost use Rattle.percent_encoding.specs.Percent.{percent_encode};
ghost use Rattle.http_client.specs.Target.{changes_target, filtered_changes_target, local_target, open_revs_query, open_revs_target};

use form_urlencoded::Serializer;
use percent_encoding::{AsciiSet, NON_ALPHANUMERIC, ascii_set, percent_encode};
use std::alloc::{AllocError, Global};

/// What is escaped in a path segment: every byte but ASCII letters and digits, `-`, `.`, `_` and
/// `~` (RFC 3986, 2.3).
pub const SEGMENT: AsciiSet = ascii_set!(
    NON_ALPHANUMERIC
        .remove(b'-')
        .remove(b'.')
        .remove(b'_')
        .remove(b'~')
);

/// The target of at most so many changes above a number, with all leaves of each document.
pub fn changes_target(alloc: Global, since: u64, limit: u64) -> Result<String, AllocError>
    ensures target { IfOk result (λ text. string_bytes text ≡ changes_target since limit) }
{
    format!(in alloc; "/db/_changes?style=all_docs&since={since}&limit={limit}")
}

/// The target of at most so many changes above a number, of the documents that the request's body
/// lists, with all leaves of each.
pub fn filtered_changes_target(alloc: Global, since: u64, limit: u64) -> Result<String, AllocError>
    ensures target { IfOk result (λ text. string_bytes text ≡ filtered_changes_target since limit) }
{
    format!(in alloc; "/db/_changes?style=all_docs&filter=_doc_ids&since={since}&limit={limit}")
}

/// The target of a local document.
pub fn local_target(alloc: Global, id: &str) -> Result<String, AllocError>
    ensures target { IfOk result (λ text. string_bytes text ≡ local_target SEGMENT id.now) }
{
    let segment = segment(alloc, id)?;
    format!(in alloc; "/db/_local/{segment}")
}

/// The target of the revisions of a document that a JSON list names, or of the newest in their
/// place, each with its ancestors.
pub fn open_revs_target(alloc: Global, id: &str, list: &str) -> Result<String, AllocError>
    ensures target { IfOk result (λ text. string_bytes text
        ≡ open_revs_target SEGMENT id.now list.now) }
{
    let segment = segment(alloc, id)?;
    let query = open_revs_query(alloc, list)?;
    format!(in alloc; "/db/{segment}?{query}")
}

/// An id as a path segment.
fn segment(alloc: Global, id: &str) -> Result<String, AllocError>
    ensures { IfOk result (λ text. string_bytes text ≡ percent_encode SEGMENT id.now) }
{
    let mut text = String::new(alloc);
    percent_encode(id.as_bytes(), SEGMENT).append_to(&mut text)?;
    Ok(text)
}

/// The query string of revisions that a list names.
fn open_revs_query(alloc: Global, list: &str) -> Result<String, AllocError>
    ensures { IfOk result (λ text. string_bytes text ≡ open_revs_query list.now) }
{
    let mut form = Serializer::new(String::new(alloc));
    form.append_pair("revs", "true")?;
    form.append_pair("latest", "true")?;
    form.append_pair("open_revs", list)?;
    Ok(form.finish())
}
