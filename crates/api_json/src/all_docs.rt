//! All documents, as an answer writes them.
ghost use Rattle.std.specs.Prelude.{◌≡◌, ◌++◌, length, IfOk, string_bytes};
ghost use Rattle.serde_json.specs.Written.{compact_text};
ghost use Rattle.api_json.specs.AllDocs.{all_docs_data, all_listed_data, listed_data};

use crate::changes::{named_rev_len, named_rev_text};
use crate::frame::Frame;
use crate::list::append_list;
use crate::numbers::digits_len;
use document_id::DocId;
use document_json::{list_len, quoted_text, sum_len};
use revision_id::RevId;
use std::alloc::{AllocError, Global};

/// What `{"id":,"key":,"value":}` writes round the parts of a row.
const ROUND_LISTED: usize = 23;

/// What `{"offset":0,"rows":,"total_rows":}` writes round the rows and how many they are.
const ROUND_ALL: usize = 34;

/// A document and its winner.
pub fn listed_text(alloc: Global, listed: &(DocId, RevId)) -> Result<String, AllocError>
    ensures text { IfOk result (λ text. string_bytes text ≡ compact_text (listed_data listed.now)) }
{
    let id = quoted_text(alloc, listed.0.as_str())?;
    let winner = named_rev_text(alloc, &listed.1)?;
    format!(in alloc; "{{\"id\":{id},\"key\":{id},\"value\":{winner}}}")
}

/// Writes the list of the documents behind a text.
fn append_listed(
    alloc: Global,
    text: String,
    documents: &[(DocId, RevId)],
) -> Result<String, AllocError>
    ensures { IfOk result (λ longer. string_bytes longer
        ≡ string_bytes text ++ compact_text (all_listed_data documents.now)) }
{
    append_list(text, documents, |listed| listed_text(alloc, listed))
}

/// What the answer of `_all_docs` has round its rows: after them how many they are.
pub fn all_docs_frame(alloc: Global, documents: &[(DocId, RevId)]) -> Result<Frame, AllocError>
    ensures frame { IfOk result (λ frame.
        (string_bytes frame.before ++ compact_text (all_listed_data documents.now)) ++ string_bytes frame.after
        ≡ compact_text (all_docs_data documents.now)) }
{
    let total = documents.len();
    let before = String::from_str(alloc, r#"{"offset":0,"rows":"#)?;
    let after = format!(in alloc; ",\"total_rows\":{total}}}")?;
    Ok(Frame { before, after })
}

/// All documents, with how many they are.
pub fn all_docs_text(alloc: Global, documents: &[(DocId, RevId)]) -> Result<String, AllocError>
    ensures { IfOk result (λ text. string_bytes text ≡ compact_text (all_docs_data documents.now)) }
{
    let Frame { before, after } = all_docs_frame(alloc, documents)?;
    let mut text = append_listed(alloc, before, documents)?;
    text.push_str(after.as_str())?;
    Ok(text)
}

/// The length of a document and its winner. It takes memory for the text of the id.
fn listed_len(alloc: Global, listed: &(DocId, RevId)) -> Result<usize, AllocError>
    ensures { IfOk result (λ len. len ≡ length (compact_text (listed_data listed.now))) }
{
    let id = quoted_text(alloc, listed.0.as_str())?;
    let both = sum_len(id.len(), id.len())?;
    sum_len(both, named_rev_len(&listed.1) + ROUND_LISTED)
}

/// The length of the list of the documents.
fn all_listed_len(alloc: Global, documents: &[(DocId, RevId)]) -> Result<usize, AllocError>
    ensures { IfOk result (λ len. len ≡ length (compact_text (all_listed_data documents.now))) }
{
    list_len(documents, |listed| listed_len(alloc, listed))
}

/// The length of the answer of `_all_docs`.
///
/// # Errors
///
/// Out of memory, or the length is more than `usize::MAX`.
pub fn all_docs_len(alloc: Global, documents: &[(DocId, RevId)]) -> Result<usize, AllocError>
    ensures len { IfOk result (λ len. len ≡ length (compact_text (all_docs_data documents.now))) }
{
    let rows = all_listed_len(alloc, documents)?;
    sum_len(rows, digits_len(documents.len() as u64) + ROUND_ALL)
}
