//! A bulk of revisions from elsewhere.
ghost use Rattle.std.specs.Prelude.{◌≡◌, ◌++◌, map, IfOk, string_bytes};
ghost use Rattle.serde_json.specs.Data.{array};
ghost use Rattle.serde_json.specs.View.{items_of};
ghost use Rattle.serde_json.specs.Written.{compact_text};
ghost use Rattle.document_json.specs.Written.{merge_data};
ghost use Rattle.replicator_http.specs.Requests.{bulk_data, bulk_request};

use crate::requests::apart::Apart;
use api_json::append_list;
use commands::Merge;
use document_json::merge_text;
use http_client::request_head;
use std::alloc::{AllocError, Global};

/// Asks to graft documents with their paths.
pub fn bulk_request(alloc: Global, host: &str, documents: &[Merge]) -> Result<Apart, AllocError>
    ensures request { IfOk result (λ request. request ≡ bulk_request host.now documents.now) }
{
    let body = bulk_body(alloc, documents)?;
    let head = request_head(alloc, host, "POST", "/db/_bulk_docs", body.as_str().len())?;
    Ok(Apart { head, body })
}

/// The documents, which are no new edits.
fn bulk_body(alloc: Global, documents: &[Merge]) -> Result<String, AllocError>
    ensures { IfOk result (λ text. string_bytes text ≡ compact_text (bulk_data documents.now)) }
{
    let front = String::from_str(alloc, r#"{"docs":"#)?;
    let mut text = append_merges(alloc, front, documents)?;
    text.push_str(r#","new_edits":false}"#)?;
    Ok(text)
}

/// Writes the list of the documents behind a text.
fn append_merges(alloc: Global, text: String, documents: &[Merge]) -> Result<String, AllocError>
    ensures { IfOk result (λ longer. string_bytes longer
        ≡ string_bytes text ++ compact_text (array (items_of (map merge_data documents.now)))) }
{
    append_list(text, documents, |document| merge_text(alloc, document))
}
