//! What is said of a write that was taken.
ghost use Rattle.std.specs.Prelude.{◌≡◌, IfOk, string_bytes};
ghost use Rattle.serde_json.specs.Written.{compact_text};
ghost use Rattle.api_json.specs.Replies.{local_written_data, write_data, written_data};

use document_id::DocId;
use document_json::{counter_text, local_id_text, put_string};
use revision_id::RevId;
use std::alloc::{AllocError, Global};

/// Room for the names and the marks of what is said of a write.
const NAMES_ROOM: usize = 40;

/// The text that reports a write that was taken.
pub fn written_text(alloc: Global, id: &DocId, rev: &RevId) -> Result<String, AllocError>
    ensures { IfOk result (λ text. string_bytes text ≡ compact_text (written_data id.now rev.now)) }
{
    let rev = rev.text(alloc)?;
    write_text(alloc, id.as_str(), rev.as_str())
}

fn write_text(alloc: Global, id: &str, rev: &str) -> Result<String, AllocError>
    ensures { IfOk result (λ text. string_bytes text ≡ compact_text (write_data id.now rev.now)) }
{
    let room = id.len().saturating_add(rev.len());
    let mut text = String::with_capacity(alloc, room.saturating_add(NAMES_ROOM))?;
    text.push_str(r#"{"id":"#)?;
    put_string(&mut text, alloc, id)?;
    text.push_str(r#","ok":true,"rev":"#)?;
    put_string(&mut text, alloc, rev)?;
    text.push_str("}")?;
    Ok(text)
}

/// The text that reports a write of a local document that was taken.
pub fn local_written_text(alloc: Global, id: &DocId, counter: u32) -> Result<String, AllocError>
    ensures { IfOk result (λ text. string_bytes text
        ≡ compact_text (local_written_data id.now counter)) }
{
    let id = local_id_text(alloc, id)?;
    let rev = counter_text(alloc, counter)?;
    write_text(alloc, id.as_str(), rev.as_str())
}
