//! The next change.
ghost use Rattle.std.specs.Prelude.{◌≡◌, None, Some, IfOk, string_bytes};
ghost use Rattle.replicator_http.specs.Poll.{filtered_poll_target, poll_request, poll_target};

use crate::requests::filtered::doc_ids_body;
use document_id::DocIds;
use http_client::request_text;
use std::alloc::{AllocError, Global};

/// Asks for the next change after a number, of these documents or of all, to be answered when there is one.
pub fn poll_request(
    alloc: Global,
    host: &str,
    ids: &Option<DocIds>,
    since: u64,
) -> Result<String, AllocError>
    ensures request { IfOk result (λ text. string_bytes text ≡ poll_request host.now ids.now since) }
{
    match ids {
        Some(ids) => filtered_poll(alloc, host, ids, since),
        None => whole_poll(alloc, host, since),
    }
}

fn whole_poll(alloc: Global, host: &str, since: u64) -> Result<String, AllocError>
    ensures { IfOk result (λ text. string_bytes text ≡ poll_request host.now None since) }
{
    let target = poll_target(alloc, since)?;
    request_text(alloc, host, "GET", target.as_str(), "")
}

fn filtered_poll(alloc: Global, host: &str, ids: &DocIds, since: u64) -> Result<String, AllocError>
    ensures { IfOk result (λ text. string_bytes text ≡ poll_request host.now (Some ids.now) since) }
{
    let target = filtered_poll_target(alloc, since)?;
    let body = doc_ids_body(alloc, ids)?;
    request_text(alloc, host, "POST", target.as_str(), body.as_str())
}

fn poll_target(alloc: Global, since: u64) -> Result<String, AllocError>
    ensures { IfOk result (λ text. string_bytes text ≡ poll_target since) }
{
    format!(in alloc; "/db/_changes?feed=longpoll&limit=1&since={since}")
}

fn filtered_poll_target(alloc: Global, since: u64) -> Result<String, AllocError>
    ensures { IfOk result (λ text. string_bytes text ≡ filtered_poll_target since) }
{
    format!(in alloc; "/db/_changes?feed=longpoll&filter=_doc_ids&limit=1&since={since}")
}
