//! What is read of the other database: its changes, and revisions of a document.
ghost use Rattle.std.specs.Prelude.{◌≡◌, false, IfOk, string_bytes};
ghost use Rattle.serde_json.specs.View.{view};
ghost use Rattle.serde_json.specs.Written.{compact_text, has_float};
ghost use Rattle.document_json.specs.Written.{revs_data};
ghost use Rattle.replicator_http.specs.Requests.{changes_request, open_revs_request};

use document_id::DocId;
use document_json::{revs_value, value_text};
use http_client::{SEGMENT, changes_target, open_revs_target, request_text};
use revision_id::RevId;
use serde_json::Value;
use std::alloc::{AllocError, Global};

/// Asks for the changes above a number, at most `limit` rows, with all leaves of each document.
pub fn changes_request(
    alloc: Global,
    host: &str,
    since: u64,
    limit: u64,
) -> Result<String, AllocError>
    ensures request { IfOk result (λ text. string_bytes text ≡ changes_request host.now since limit) }
{
    let target = changes_target(alloc, since, limit)?;
    request_text(alloc, host, "GET", target.as_str(), "")
}

/// Asks for revisions of a document, or for the newest in their place, each with its ancestors.
pub fn open_revs_request(
    alloc: Global,
    host: &str,
    id: &DocId,
    revs: &[RevId],
) -> Result<String, AllocError>
    ensures request { IfOk result (λ text. string_bytes text
        ≡ open_revs_request host.now SEGMENT id.now revs.now) }
{
    let list = revs_text(alloc, revs)?;
    let target = open_revs_target(alloc, id.as_str(), list.as_str())?;
    request_text(alloc, host, "GET", target.as_str(), "")
}

/// The list of the texts of revisions.
fn revs_text(alloc: Global, revs: &[RevId]) -> Result<String, AllocError>
    ensures { IfOk result (λ text. string_bytes text ≡ compact_text (revs_data revs.now)) }
{
    let value = plain_revs(alloc, revs)?;
    value_text(alloc, &value)
}

/// The list of the texts of revisions, which has no float.
fn plain_revs(alloc: Global, revs: &[RevId]) -> Result<Value, AllocError>
    ensures value { IfOk result (λ value. view value ≡ revs_data revs.now) }
    ensures plain { IfOk result (λ value. has_float (view value) ≡ false) }
{
    revs_value(alloc, revs)
}
