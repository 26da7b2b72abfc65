//! Checkpoints, as local documents.
ghost use Rattle.std.specs.Prelude.{◌≡◌, ◌≢◌, ◌≤◌, Some, Err, IfOk, string_bytes};
ghost use Rattle.std.specs.Arc.{arc_value};
ghost use Rattle.serde_json.specs.Data.{object};
ghost use Rattle.serde_json.specs.Read.{read as read_text};
ghost use Rattle.serde_json.specs.View.{view};
ghost use Rattle.replicator.specs.declared.fault.PeerFault.TheVariants as fault;
ghost use Rattle.session_peer.specs.Checkpoints.{checkpoint_body, checkpoint_in, last_seq_in, past_numbers};

use json_profile::{Body, Json, MAX_NESTING, read};
use replicator::{Checkpoint, PeerFault};
use serde_json::{Value, json};
use std::alloc::{AllocError, Global};
use std::sync::Arc;

/// The least number that is no number of a body.
const PAST_NUMBERS: u64 = 9_223_372_036_854_775_808;

/// The checkpoint that a local document is, if its body has a number of the source.
pub(crate) fn checkpoint_of(
    alloc: Global,
    counter: u32,
    body: &Arc<Body>,
) -> Result<Option<Checkpoint>, AllocError>
    ensures { IfOk result (λ checkpoint. checkpoint ≡ checkpoint_in (counter, arc_value body.now)) }
{
    let last_seq = last_seq_in(alloc, body)?;
    Ok(last_seq.map(|last_seq| Checkpoint { counter, last_seq }))
}

/// The number under `last_seq`, where there is one from 0.
fn last_seq_in(alloc: Global, body: &Body) -> Result<Option<u64>, AllocError>
    ensures { IfOk result (λ last_seq. last_seq ≡ last_seq_in body.now) }
{
    let Ok(json) = read(alloc, body.text().as_bytes(), MAX_NESTING) else {
        return Err(AllocError);
    };
    Ok(json.value().get("last_seq").and_then(Value::as_u64))
}

/// The body of a checkpoint.
///
/// # Errors
///
/// [`PeerFault::Refused`] where the number is past those of a body.
pub(crate) fn checkpoint_body(alloc: Global, last_seq: u64) -> Result<Body, PeerFault>
    ensures body { IfOk result (λ body. body ≡ checkpoint_body last_seq) }
    ensures past { result ≡ Err fault.Refused → past_numbers ≤ last_seq }
    ensures others { (result ≢ Err fault.Failed) × (result ≢ Err fault.Unreadable) }
{
    if last_seq >= PAST_NUMBERS {
        return Err(PeerFault::Refused);
    }
    let text = checkpoint_text(alloc, last_seq)?;
    Ok(read_body(alloc, text.as_str(), last_seq)?)
}

/// The body that the text of a checkpoint's is.
fn read_body(alloc: Global, text: &str, last_seq: u64) -> Result<Body, AllocError>
    requires { read_text text.now ≡ Some (object (checkpoint_body last_seq)) }
    ensures { IfOk result (λ body. body ≡ checkpoint_body last_seq) }
{
    let Ok(json) = read(alloc, text.as_bytes(), MAX_NESTING) else {
        return Err(AllocError);
    };
    body_in(alloc, &json, last_seq)
}

/// The text of a checkpoint's body.
fn checkpoint_text(alloc: Global, last_seq: u64) -> Result<String, AllocError>
    ensures { IfOk result (λ text. read_text (string_bytes text) ≡ Some (object (checkpoint_body last_seq))) }
{
    let value = checkpoint_value(alloc, last_seq)?;
    value.to_string(alloc)
}

fn checkpoint_value(alloc: Global, last_seq: u64) -> Result<Value, AllocError>
    ensures { IfOk result (λ value. view value ≡ object (checkpoint_body last_seq)) }
{
    json!(in alloc; {"last_seq": last_seq})
}

/// A checkpoint's value as a body.
fn body_in(alloc: Global, json: &Json, last_seq: u64) -> Result<Body, AllocError>
    requires { json.now ≡ object (checkpoint_body last_seq) }
    ensures { IfOk result (λ body. body ≡ checkpoint_body last_seq) }
{
    match json.object_without_specials(alloc) {
        Ok(body) => Ok(body),
        Err(_) => Err(AllocError),
    }
}
