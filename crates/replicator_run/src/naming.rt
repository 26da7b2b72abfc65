//! What the checkpoints of a replication are called where no id is given.
ghost use Rattle.std.specs.Prelude.{◌≡◌, ◌++◌, IfOk, codes, string_bytes};
ghost use Rattle.std.specs.List.{flat_map};
ghost use Rattle.replicator_run.specs.CheckpointId.{checkpoint_id, listed, measured, skip_line};

use document_id::{DocId, DocIds};
use md5::{Digest, Md5};
use std::alloc::{AllocError, Global};

/// The id of the checkpoints of a replication from the one place to the other, of these documents or of all:
/// a digest of both, in this order, of the list, and of whether documents are skipped, as a replication in the
/// other direction, between other places, of other documents or that skips none has another.
///
/// # Sources
/// CouchDB: "CouchDB Replication Protocol", "Generate Replication ID".
pub fn checkpoint_id(
    alloc: Global,
    source: &str,
    target: &str,
    ids: &Option<DocIds>,
    skips: bool,
) -> Result<DocId, AllocError>
    ensures { IfOk result (λ id. id ≡ checkpoint_id source.now target.now ids.now skips) }
{
    let list = list_text(alloc, ids)?;
    let skip = skip_line(skips);
    let text = format!(in alloc; "{source}\n{target}\n{skip}{list}")?;
    let digest = hex::encode(alloc, Md5::digest(text.as_bytes()))?;
    match DocId::new(alloc, digest.as_str()) {
        Ok(id) => Ok(id),
        Err(_) => Err(AllocError),
    }
}

/// A line where documents are skipped.
fn skip_line(skips: bool) -> &'static str
    ensures { result.now ≡ skip_line skips }
{
    if skips { "skip\n" } else { "" }
}

/// The documents of a list, and nothing where all are brought.
fn list_text(alloc: Global, ids: &Option<DocIds>) -> Result<String, AllocError>
    ensures { IfOk result (λ text. string_bytes text ≡ listed ids.now) }
{
    match ids {
        Some(ids) => ids_text(alloc, ids),
        None => Ok(String::new(alloc)),
    }
}

fn ids_text(alloc: Global, ids: &DocIds) -> Result<String, AllocError>
    ensures { IfOk result (λ text. string_bytes text ≡ codes "ids:" ++ flat_map measured ids.now) }
{
    let mut text = String::from_str(alloc, "ids:")?;
    for id in ids.iter() {
        let measured = measured(alloc, id)?;
        text.push_str(measured.as_str())?;
    }
    Ok(text)
}

/// An id behind its length.
fn measured(alloc: Global, id: &DocId) -> Result<String, AllocError>
    ensures { IfOk result (λ text. string_bytes text ≡ measured id.now) }
{
    let id = id.as_str();
    let len = id.len();
    format!(in alloc; "{len}:{id}")
}
