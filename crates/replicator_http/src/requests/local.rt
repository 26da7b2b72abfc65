//! Checkpoints, which are local documents of the other database.
ghost use Rattle.std.specs.Prelude.{◌≡◌, true, false, IfOk, string_bytes};
ghost use Rattle.serde_json.specs.View.{view};
ghost use Rattle.serde_json.specs.Written.{compact_text, has_float};
ghost use Rattle.replicator_http.specs.Requests.{checkpoint_data, local_get_request, local_put_request};

use document_id::DocId;
use document_json::{counter_text, value_text};
use http_client::{SEGMENT, local_target, request_text};
use serde_json::{Value, json};
use std::alloc::{AllocError, Global};

/// Asks for the checkpoint of this id.
pub fn local_get_request(alloc: Global, host: &str, id: &DocId) -> Result<String, AllocError>
    ensures request { IfOk result (λ text. string_bytes text ≡ local_get_request host.now SEGMENT id.now) }
{
    let target = local_target(alloc, id.as_str())?;
    request_text(alloc, host, "GET", target.as_str(), "")
}

/// Asks to write a checkpoint over the revision whose number is named, or the first where none is:
/// the update number of the source up to which the target has all, and where documents are skipped that
/// they are.
pub fn local_put_request(
    alloc: Global,
    host: &str,
    skips: bool,
    id: &DocId,
    named: Option<u32>,
    last_seq: u64,
) -> Result<String, AllocError>
    ensures request { IfOk result (λ text. string_bytes text
        ≡ local_put_request host.now skips SEGMENT id.now named last_seq) }
{
    let target = local_target(alloc, id.as_str())?;
    let body = checkpoint_body(alloc, named, last_seq, skips)?;
    request_text(alloc, host, "PUT", target.as_str(), body.as_str())
}

/// The body of a checkpoint.
fn checkpoint_body(
    alloc: Global,
    named: Option<u32>,
    last_seq: u64,
    skips: bool,
) -> Result<String, AllocError>
    ensures { IfOk result (λ text. string_bytes text
        ≡ compact_text (checkpoint_data named last_seq skips)) }
{
    if skips {
        let value = skipping_value(alloc, named, last_seq)?;
        return value_text(alloc, &value);
    }
    let value = checkpoint_value(alloc, named, last_seq)?;
    value_text(alloc, &value)
}

fn checkpoint_value(alloc: Global, named: Option<u32>, last_seq: u64) -> Result<Value, AllocError>
    ensures value { IfOk result (λ value. view value ≡ checkpoint_data named last_seq false) }
    ensures plain { IfOk result (λ value. has_float (view value) ≡ false) }
{
    let Some(counter) = named else {
        return json!(in alloc; {"last_seq": last_seq});
    };
    let rev = counter_text(alloc, counter)?;
    json!(in alloc; {"_rev": rev.as_str(), "last_seq": last_seq})
}

/// The same where documents are skipped.
fn skipping_value(alloc: Global, named: Option<u32>, last_seq: u64) -> Result<Value, AllocError>
    ensures value { IfOk result (λ value. view value ≡ checkpoint_data named last_seq true) }
    ensures plain { IfOk result (λ value. has_float (view value) ≡ false) }
{
    let Some(counter) = named else {
        return json!(in alloc; {"last_seq": last_seq, "skip": true});
    };
    let rev = counter_text(alloc, counter)?;
    json!(in alloc; {"_rev": rev.as_str(), "last_seq": last_seq, "skip": true})
}
