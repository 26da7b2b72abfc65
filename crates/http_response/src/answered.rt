//! What a query is answered.
ghost use Rattle.std.specs.Prelude.{◌≡◌, option_map, IfOk, string_bytes};
ghost use Rattle.std.specs.Arc.{arc_value};
ghost use Rattle.queries.specs.Answer.{answer_of};
ghost use Rattle.queries.specs.Query.{query_of};
ghost use Rattle.http_response.specs.Response.{bytes_of};
ghost use Rattle.http_response.specs.Texts.{answer_text};
ghost use Rattle.http_response.specs.Told.{answer_told, found_told, local_told, told_absent, told_found};

use crate::body::BodyText;
use crate::connection::Connection;
use crate::problem::body_of_absent;
use crate::response::Response;
use crate::status::StatusCode;
use api_json::{
    all_docs_text, all_opened_text, counts_text, differences_text, number_text, page_text,
};
use document_id::DocId;
use document_json::{document_text, local_text};
use json_profile::Body;
use model::Absent;
use queries::{Answer, AnswerKind, Document, Query, QueryKind};
use std::alloc::{AllocError, Global};
use std::sync::Arc;

/// The response to a query, where such queries are answered so.
#[tactic(auto, unfolding(crate::specs::Texts::answer_text))]
pub fn answer(
    alloc: Global,
    place: u64,
    connection: Connection,
    query: &Query,
    answer: &Answer,
) -> Result<Option<Response>, AllocError>
    ensures text { IfOk result (λ response. response ≡ answer_text place connection query.now answer.now) }
{
    let Some((status, body)) = tell(alloc, query.kind(), answer.kind())? else {
        return Ok(None);
    };
    Ok(Some(Response::plain(status, place, connection, body)))
}

fn tell(
    alloc: Global,
    query: &QueryKind,
    answer: &AnswerKind,
) -> Result<Option<(StatusCode, BodyText)>, AllocError>
    ensures { IfOk result (λ told. option_map (λ t. (t.0, bytes_of t.1)) told
        ≡ answer_told (query_of query.now) (answer_of answer.now)) }
{
    match (query, answer) {
        (QueryKind::Get { .. }, AnswerKind::Found(found)) => Ok(Some(tell_found(alloc, found)?)),
        (QueryKind::OpenRevs { .. }, AnswerKind::Opened(opened)) => {
            Ok(Some(tell_text(all_opened_text(alloc, opened)?)))
        }
        (QueryKind::RevsDiff(_), AnswerKind::Differences(differences)) => {
            Ok(Some(tell_text(differences_text(alloc, differences)?)))
        }
        (QueryKind::Changes { .. }, AnswerKind::Changed(page)) => {
            Ok(Some(tell_text(page_text(alloc, page)?)))
        }
        (QueryKind::AllDocuments, AnswerKind::Documents(documents)) => {
            Ok(Some(tell_text(all_docs_text(alloc, documents)?)))
        }
        (QueryKind::Info, AnswerKind::Counted(counts)) => {
            Ok(Some(tell_text(counts_text(alloc, counts)?)))
        }
        (QueryKind::GetLocal(id), AnswerKind::FoundLocal(found)) => {
            Ok(Some(tell_local(alloc, id, found)?))
        }
        (QueryKind::RevsLimit | QueryKind::PurgedInfosLimit, AnswerKind::Limit(limit)) => {
            Ok(Some(tell_text(number_text(alloc, *limit)?)))
        }
        _ => Ok(None),
    }
}

/// Reports what was found.
fn tell_text(text: String) -> (StatusCode, BodyText)
    ensures { (result.0, bytes_of result.1) ≡ told_found (string_bytes text) }
{
    (StatusCode::Ok, BodyText::Made(text))
}

/// Reports that a document is not found.
fn tell_absent(absent: Absent) -> (StatusCode, BodyText)
    ensures { (result.0, bytes_of result.1) ≡ told_absent absent }
{
    let body = body_of_absent(absent);
    (StatusCode::NotFound, BodyText::Fixed(body))
}

fn tell_local(
    alloc: Global,
    id: &DocId,
    found: &Option<(u32, Arc<Body>)>,
) -> Result<(StatusCode, BodyText), AllocError>
    ensures { IfOk result (λ told. (told.0, bytes_of told.1)
        ≡ local_told id.now (option_map (λ l. (l.0, arc_value l.1)) found.now)) }
{
    match found {
        Some((counter, body)) => Ok(tell_text(local_text(alloc, id, *counter, body)?)),
        None => Ok(tell_absent(Absent::IsMissing)),
    }
}

fn tell_found(
    alloc: Global,
    found: &Result<Document, Absent>,
) -> Result<(StatusCode, BodyText), AllocError>
    ensures { IfOk result (λ told. (told.0, bytes_of told.1) ≡ found_told found.now) }
{
    match found {
        Ok(document) => Ok(tell_text(document_text(alloc, document)?)),
        Err(absent) => Ok(tell_absent(*absent)),
    }
}
