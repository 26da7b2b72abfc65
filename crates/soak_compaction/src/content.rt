//! What a version has.

use crate::command::numbered;
use crate::notes::Sample;
use crate::told::{Content, Kept, Replied, Told};
use commands::{Entry, ReplyKind};
use document_id::DocId;
use revision_id::RevId;
use revision_tree::RevTree;
use sessions::{Fault, Receipt};
use snapshots::Version;
use std::alloc::Global;

pub(crate) fn content(version: &Version) -> Content {
    let database = version.database();
    Content {
        place: version.place(),
        update_seq: database.documents().update_seq(),
        purge_seq: database.purges().purge_seq(),
        documents: database.documents().len(),
    }
}

/// What there is of a revision.
pub(crate) fn kept(version: &Version, id: &DocId, revision: RevId) -> Kept {
    let Some(record) = version.database().documents().get(id) else {
        return Kept::Unknown;
    };
    if !record.tree().knows(revision) {
        return Kept::Unknown;
    }
    match record.tree().body_of(revision) {
        Some(_body) => Kept::WithBody,
        None => Kept::WithoutBody,
    }
}

/// The revision of a document that wins.
pub(crate) fn winner(version: &Version, id: &DocId) -> Option<RevId> {
    Some(version.database().documents().get(id)?.tree().winner().rev)
}

/// What a write or a compaction was answered, by a session that has then seen this version.
pub(crate) fn told(answer: Result<Receipt, Fault>, version: &Version) -> Told {
    match answer {
        Ok(receipt) => told_of(&receipt, version),
        Err(fault) => Told::Fault(fault),
    }
}

fn told_of(receipt: &Receipt, version: &Version) -> Told {
    let place = receipt.place;
    if !is_told(version, receipt) {
        return Told::Untold { place };
    }
    Told::Receipt {
        call: receipt.seat.call(),
        place,
        reply: replied(receipt.reply.kind()),
    }
}

/// Whether the receipt's entry is at its place.
fn is_told(version: &Version, receipt: &Receipt) -> bool {
    match version.entry(receipt.place) {
        Some(entry) => is_of(entry, receipt),
        None => false,
    }
}

fn is_of(entry: &Entry, receipt: &Receipt) -> bool {
    entry.seat.session() == receipt.seat.session()
        && entry.seat.call() == receipt.seat.call()
        && entry.reply.is_same(&receipt.reply)
}

fn replied(reply: &ReplyKind) -> Replied {
    match reply {
        ReplyKind::Wrote(writes) if writes.as_slice().iter().all(Result::is_ok) => Replied::Wrote,
        ReplyKind::Purged { purge_seq, .. } => Replied::Purged(*purge_seq),
        ReplyKind::Done => Replied::Done,
        _ => Replied::Refused,
    }
}

/// What there is of the document of a number, if memory is not refused.
pub(crate) fn sample_of(alloc: Global, version: &Version, document: usize) -> Option<Sample> {
    let id = numbered(alloc, document)?;
    let content = content(version);
    Some(Sample {
        place: content.place,
        document,
        update_seq: content.update_seq,
        purge_seq: content.purge_seq,
        winner: winner(version, &id),
        bodies: bodies(version, &id),
    })
}

/// How many revisions of a document have a body.
fn bodies(version: &Version, id: &DocId) -> usize {
    match version.database().documents().get(id) {
        Some(record) => bodies_in(record.tree()),
        None => 0,
    }
}

fn bodies_in(tree: &RevTree) -> usize {
    let mut bodies = 0usize;
    for node in tree.nodes() {
        if node.body.is_some() {
            bodies = bodies.saturating_add(1);
        }
    }
    bodies
}
