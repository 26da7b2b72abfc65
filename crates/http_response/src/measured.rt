//! Which answers are long.
ghost use Rattle.std.specs.Prelude.{◌≡◌, ◌<◌, ◌≤◌, IfNone, IfOk, IfSome, length};
ghost use Rattle.api_json.specs.AllDocs.{all_docs_data};
ghost use Rattle.api_json.specs.Changes.{page_data};
ghost use Rattle.api_json.specs.Opened.{all_opened_data};
ghost use Rattle.session_api.specs.Revisions.{opened_by};
ghost use Rattle.model.specs.Query.{Opened};
ghost use Rattle.queries.specs.Answer.{answer_of};
ghost use Rattle.queries.specs.Query.{query_of};
ghost use Rattle.serde_json.specs.Written.{compact_text};
ghost use Rattle.http_response.specs.Measured.{HasLen, IsLong};

use crate::opening::opening_len;
use crate::pieces::PIECE;
use api_json::{all_docs_len, all_opened_len, page_len};
use document_id::DocId;
use queries::{Answer, AnswerKind, ChangesPage, Document, Query, QueryKind};
use revision_id::RevId;
use session_api::Revisions;
use std::alloc::{AllocError, Global};

/// More rows, or documents, than so many are written in pieces.
pub const ROWS: usize = 1000;

/// The length of the text of a long answer, which is written in pieces: of revisions whose text has more than [`PIECE`] bytes,
/// or of more than [`ROWS`] rows or documents.
///
/// # Errors
///
/// Out of memory, or the length is more than `usize::MAX`.
pub fn long_len(alloc: Global, query: &Query, answer: &Answer) -> Result<Option<usize>, AllocError>
    ensures long { IfOk result (λ found. IfSome found (λ len. IsLong query.now answer.now × HasLen query.now answer.now len)) }
    ensures short { IfOk result (λ found. IfNone found (IsLong query.now answer.now → ⊥)) }
{
    long_len_of(alloc, query.kind(), answer.kind())
}

/// The same of revisions that are not made yet. It takes a look at each of them, and one at each conflict.
///
/// # Errors
///
/// Out of memory, or the length is more than `usize::MAX`.
pub fn long_opening_len<O: Revisions>(
    alloc: Global,
    query: &Query,
    opening: &O,
) -> Result<Option<usize>, AllocError>
    ensures long { let answer = Opened (opened_by (O.document opening.now) (O.shown opening.now)) in
        IfOk result (λ found. IfSome found (λ len. IsLong query.now answer × HasLen query.now answer len)) }
    ensures short { IfOk result (λ found. IfNone found (IsLong query.now (Opened (opened_by (O.document opening.now) (O.shown opening.now))) → ⊥)) }
{
    let QueryKind::OpenRevs { .. } = query.kind() else {
        return Ok(None);
    };
    let len = opening_len(alloc, opening)?;
    if len > PIECE {
        return Ok(Some(len));
    }
    Ok(None)
}

fn long_len_of(
    alloc: Global,
    query: &QueryKind,
    answer: &AnswerKind,
) -> Result<Option<usize>, AllocError>
    ensures long { IfOk result (λ found. IfSome found (λ len.
        IsLong (query_of query.now) (answer_of answer.now) × HasLen (query_of query.now) (answer_of answer.now) len)) }
    ensures short { IfOk result (λ found. IfNone found (IsLong (query_of query.now) (answer_of answer.now) → ⊥)) }
{
    match (query, answer) {
        (QueryKind::OpenRevs { .. }, AnswerKind::Opened(opened)) => long_opened_len(alloc, opened),
        (QueryKind::Changes { .. }, AnswerKind::Changed(page)) => long_page_len(alloc, page),
        (QueryKind::AllDocuments, AnswerKind::Documents(documents)) => {
            many_documents_len(alloc, documents)
        }
        _ => Ok(None),
    }
}

/// The length of revisions, where their text is longer than a piece.
fn long_opened_len(
    alloc: Global,
    opened: &[Result<Document, RevId>],
) -> Result<Option<usize>, AllocError>
    ensures long { IfOk result (λ found. IfSome found (λ len.
        (PIECE < length (compact_text (all_opened_data opened.now))) × (len ≡ length (compact_text (all_opened_data opened.now))))) }
    ensures short { IfOk result (λ found. IfNone found (length (compact_text (all_opened_data opened.now)) ≤ PIECE)) }
{
    let len = all_opened_len(alloc, opened)?;
    if len <= PIECE {
        return Ok(None);
    }
    Ok(Some(len))
}

/// The length of a page of changes, where its rows are many.
fn long_page_len(alloc: Global, page: &ChangesPage) -> Result<Option<usize>, AllocError>
    ensures long { IfOk result (λ found. IfSome found (λ len.
        (ROWS < length page.now.rows) × (len ≡ length (compact_text (page_data page.now))))) }
    ensures short { IfOk result (λ found. IfNone found (length page.now.rows ≤ ROWS)) }
{
    if page.rows.len() <= ROWS {
        return Ok(None);
    }
    let len = page_len(alloc, page)?;
    Ok(Some(len))
}

/// The length of documents, where they are many.
fn many_documents_len(
    alloc: Global,
    documents: &[(DocId, RevId)],
) -> Result<Option<usize>, AllocError>
    ensures long { IfOk result (λ found. IfSome found (λ len.
        (ROWS < length documents.now) × (len ≡ length (compact_text (all_docs_data documents.now))))) }
    ensures short { IfOk result (λ found. IfNone found (length documents.now ≤ ROWS)) }
{
    if documents.len() <= ROWS {
        return Ok(None);
    }
    let len = all_docs_len(alloc, documents)?;
    Ok(Some(len))
}
