//! Queries over the whole database, and local documents.
ghost use Rattle.std.specs.Prelude.{◌≡◌, IfOk, option_map};
ghost use Rattle.std.specs.Arc.{arc_value};
ghost use Rattle.model.specs.Map.{get};
ghost use Rattle.model.specs.History.{now};
ghost use Rattle.changes_feed.specs.Shown.{local_shown};
ghost use Rattle.model.specs.Answers.{counts, live_document as live_of, live_documents};

use document_id::DocId;
use json_profile::Body;
use queries::Counts;
use revision_id::RevId;
use snapshots::{Record, Version};
use std::alloc::{AllocError, Global};
use std::sync::Arc;

/// The documents whose winner is not deleted, each with its winner, in the byte order of their ids.
pub fn all_docs(alloc: Global, version: &Version) -> Result<Vec<(DocId, RevId)>, AllocError>
    ensures documents { IfOk result (λ documents. documents.items ≡ live_documents (now version.now)) }
{
    let mut documents = Vec::new(alloc);
    for (id, record) in version.database().documents().iter() {
        if let Some(document) = live_document(id, record.get())? {
            documents.push(document)?;
        }
    }
    Ok(documents)
}

fn live_document(id: &DocId, stored: &Record) -> Result<Option<(DocId, RevId)>, AllocError>
    ensures { IfOk result (λ document. document ≡ live_of (id.now, stored.now)) }
{
    let winner = stored.tree().winner();
    if winner.deleted {
        return Ok(None);
    }
    Ok(Some((id.share()?, winner.rev)))
}

/// How many documents are live and how many deleted, and the last numbers of updates and purges.
pub fn info(version: &Version) -> Counts
    ensures counts { result ≡ counts (now version.now) }
{
    version.database().counts()
}

/// The revision number and the body of a local document. The body is shared.
pub fn local_get(version: &Version, id: &DocId) -> Result<Option<(u32, Arc<Body>)>, AllocError>
    ensures local { IfOk result (λ local. option_map (λ l. (l.0, arc_value l.1)) local
        ≡ option_map local_shown (get (now version.now).locals id.now)) }
{
    let Some(local) = version.database().locals().get(id) else {
        return Ok(None);
    };
    Ok(Some((local.counter, Arc::try_clone(&local.body)?)))
}

/// How many revisions are kept above a leaf, itself among them.
pub fn revs_limit(version: &Version) -> u32
    ensures limit { result ≡ (now version.now).revs_limit }
{
    version.database().revs_limit()
}

/// How many purges the log keeps.
pub fn purged_infos_limit(version: &Version) -> u32
    ensures limit { result ≡ (now version.now).purges.limit }
{
    version.database().purges().limit()
}
