//! Answers of queries, as texts.

use document_id::DocId;
use json_profile::Body;
use model::{Absent, Status};
use queries::{Answer, AnswerKind, ChangesPage, Counts, Difference, Differences, Document, Row};
use revision_id::RevId;
use std::alloc::AllocError;
use std::sync::Arc;

pub(crate) fn push_answer(text: &mut String, answer: &Answer) -> Result<(), AllocError> {
    match answer.kind() {
        AnswerKind::Found(found) => push_found(text, found),
        AnswerKind::Opened(opened) => push_opened(text, opened),
        AnswerKind::Differences(differences) => push_differences(text, differences),
        AnswerKind::Changed(page) => push_page(text, page),
        AnswerKind::Documents(documents) => push_documents(text, documents),
        AnswerKind::Counted(counts) => push_counts(text, counts),
        AnswerKind::FoundLocal(local) => push_local(text, local),
        AnswerKind::Limit(limit) => push_limit(text, *limit),
    }
}

pub(crate) fn push_found(
    text: &mut String,
    found: &Result<Document, Absent>,
) -> Result<(), AllocError> {
    match found {
        Ok(document) => push_document(text, document),
        Err(absent) => text.push_str(absence(*absent)),
    }
}

fn absence(kind: Absent) -> &'static str {
    match kind {
        Absent::IsMissing => "missing",
        Absent::WasDeleted => "deleted",
    }
}

fn push_document(text: &mut String, document: &Document) -> Result<(), AllocError> {
    write!(text, "{} {}", document.id.as_str(), document.rev)?;
    push_deleted(text, document.deleted)?;
    push_body(text, &document.body)?;
    push_path(text, document)?;
    push_names(text, "conflicts", &document.conflicts)?;
    push_names(text, "deleted_conflicts", &document.deleted_conflicts)
}

fn push_deleted(text: &mut String, deleted: bool) -> Result<(), AllocError> {
    if deleted {
        text.push_str(" deleted")?;
    }
    Ok(())
}

/// A body that has members.
fn push_body(text: &mut String, body: &Body) -> Result<(), AllocError> {
    let members = body.text();
    if members != "{}" {
        write!(text, " {members}")?;
    }
    Ok(())
}

fn push_path(text: &mut String, document: &Document) -> Result<(), AllocError> {
    if let Some(path) = &document.revisions {
        push_names(text, "path", path)?;
    }
    if let Some(infos) = &document.revs_info {
        push_infos(text, infos)?;
    }
    Ok(())
}

/// The names after a word; nothing where there is none.
fn push_names(text: &mut String, word: &str, revs: &[RevId]) -> Result<(), AllocError> {
    if !revs.is_empty() {
        write!(text, " {word}")?;
    }
    for rev in revs {
        write!(text, " {}", *rev)?;
    }
    Ok(())
}

fn push_infos(text: &mut String, infos: &[(RevId, Status)]) -> Result<(), AllocError> {
    text.push_str(" status")?;
    for (rev, status) in infos {
        write!(text, " {} {}", *rev, status_text(*status))?;
    }
    Ok(())
}

fn status_text(kind: Status) -> &'static str {
    match kind {
        Status::Available => "available",
        Status::IsDeleted => "deleted",
        Status::NoBody => "missing",
    }
}

pub(crate) fn push_opened(
    text: &mut String,
    opened: &[Result<Document, RevId>],
) -> Result<(), AllocError> {
    for document in opened {
        push_one_opened(text, document)?;
    }
    Ok(())
}

fn push_one_opened(
    text: &mut String,
    document: &Result<Document, RevId>,
) -> Result<(), AllocError> {
    match document {
        Ok(document) => {
            text.push('[')?;
            push_document(text, document)?;
            text.push(']')
        }
        Err(rev) => write!(text, "[missing {}]", *rev),
    }
}

pub(crate) fn push_differences(
    text: &mut String,
    differences: &Differences,
) -> Result<(), AllocError> {
    for (id, difference) in differences.documents() {
        push_difference(text, id, difference)?;
    }
    Ok(())
}

fn push_difference(
    text: &mut String,
    id: &DocId,
    difference: &Difference,
) -> Result<(), AllocError> {
    write!(text, "[{}", id.as_str())?;
    push_names(text, "missing", &difference.missing)?;
    push_names(text, "ancestors", &difference.possible_ancestors)?;
    text.push(']')
}

pub(crate) fn push_page(text: &mut String, page: &ChangesPage) -> Result<(), AllocError> {
    push_rows(text, &page.rows)?;
    write!(text, "[last {} pending {}]", page.last_seq, page.pending)
}

pub(crate) fn push_rows(text: &mut String, rows: &[Row]) -> Result<(), AllocError> {
    for row in rows {
        push_row(text, row)?;
    }
    Ok(())
}

fn push_row(text: &mut String, row: &Row) -> Result<(), AllocError> {
    write!(text, "[{}", row.seq)?;
    push_names(text, row.id.as_str(), &row.changes)?;
    push_deleted(text, row.deleted)?;
    text.push(']')
}

pub(crate) fn push_documents(
    text: &mut String,
    documents: &[(DocId, RevId)],
) -> Result<(), AllocError> {
    for (id, winner) in documents {
        write!(text, "[{} {}]", id.as_str(), *winner)?;
    }
    Ok(())
}

pub(crate) fn push_counts(text: &mut String, counts: &Counts) -> Result<(), AllocError> {
    write!(
        text,
        "live {} deleted {}",
        counts.doc_count, counts.doc_del_count
    )?;
    write!(
        text,
        " update {} purge {}",
        counts.update_seq, counts.purge_seq
    )
}

pub(crate) fn push_local(
    text: &mut String,
    local: &Option<(u32, Arc<Body>)>,
) -> Result<(), AllocError> {
    match local {
        Some((counter, body)) => {
            write!(text, "{counter}")?;
            push_body(text, body)
        }
        None => text.push_str("missing"),
    }
}

pub(crate) fn push_limit(text: &mut String, limit: u32) -> Result<(), AllocError> {
    write!(text, "{limit}")
}
