//! Changes of some documents alone.
ghost use Rattle.std.specs.Prelude.{◌≡◌, ◌++◌, map, IfOk, string_bytes};
ghost use Rattle.serde_json.specs.Data.{array, string};
ghost use Rattle.serde_json.specs.View.{items_of};
ghost use Rattle.serde_json.specs.Written.{compact_text};
ghost use Rattle.replicator_http.specs.Requests.{doc_ids_data, filtered_changes_request};

use api_json::append_list;
use document_id::{DocId, DocIds};
use document_json::put_string;
use http_client::{filtered_changes_target, request_text};
use std::alloc::{AllocError, Global};

/// Asks for the changes of these documents above a number, at most `limit` rows, with all leaves of
/// each. However long the list is, it goes in one request: a server that takes none so large refuses
/// it.
pub fn filtered_changes_request(
    alloc: Global,
    host: &str,
    ids: &DocIds,
    since: u64,
    limit: u64,
) -> Result<String, AllocError>
    ensures request { IfOk result (λ text. string_bytes text
        ≡ filtered_changes_request host.now ids.now since limit) }
{
    let target = filtered_changes_target(alloc, since, limit)?;
    let body = doc_ids_body(alloc, ids)?;
    request_text(alloc, host, "POST", target.as_str(), body.as_str())
}

/// The documents that are asked for.
pub(crate) fn doc_ids_body(alloc: Global, ids: &DocIds) -> Result<String, AllocError>
    ensures { IfOk result (λ text. string_bytes text ≡ compact_text (doc_ids_data ids.now)) }
{
    let listed = listed(alloc, ids)?;
    let front = String::from_str(alloc, r#"{"doc_ids":"#)?;
    let mut text = append_ids(alloc, front, &listed)?;
    text.push_str("}")?;
    Ok(text)
}

/// The ids in their order.
fn listed(alloc: Global, ids: &DocIds) -> Result<Vec<DocId>, AllocError>
    ensures { IfOk result (λ listed. listed.items ≡ ids.now) }
{
    let mut listed = Vec::new(alloc);
    for id in ids.iter() {
        listed.push(id.share()?)?;
    }
    Ok(listed)
}

/// Writes the list of the ids behind a text.
fn append_ids(alloc: Global, text: String, ids: &[DocId]) -> Result<String, AllocError>
    ensures { IfOk result (λ longer. string_bytes longer
        ≡ string_bytes text ++ compact_text (array (items_of (map string ids.now)))) }
{
    append_list(text, ids, |id| id_text(alloc, id))
}

/// The text of an id, with its quotes.
fn id_text(alloc: Global, id: &DocId) -> Result<String, AllocError>
    ensures { IfOk result (λ text. string_bytes text ≡ compact_text (string id.now)) }
{
    let mut text = String::new(alloc);
    put_string(&mut text, alloc, id.as_str())?;
    Ok(text)
}
