//! What commands were answered, and what is in a version, as texts.

use commands::{AskedRevisions, Reply, ReplyKind};
use document_id::DocId;
use model::Refusal;
use revision_id::RevId;
use revision_tree::Node;
use snapshots::{Record, Version};
use std::alloc::AllocError;

/// What the last command was answered.
pub(crate) fn push_last_reply(text: &mut String, version: &Version) -> Result<(), AllocError> {
    match version.entry(version.place()) {
        Some(entry) => push_reply(text, &entry.reply),
        None => Ok(()),
    }
}

pub(crate) fn push_reply(text: &mut String, reply: &Reply) -> Result<(), AllocError> {
    match reply.kind() {
        ReplyKind::Wrote(writes) => push_writes(text, writes.as_slice()),
        ReplyKind::WroteLocal(Ok(counter)) => write!(text, " local {counter}"),
        ReplyKind::WroteLocal(Err(refused)) => write!(text, " {}", refusal(*refused)),
        ReplyKind::Purged { purge_seq, removed } => {
            write!(text, " purge {purge_seq}")?;
            push_purged(text, removed.documents())
        }
        ReplyKind::Done => text.push_str(" done"),
    }
}

fn refusal(refusal: Refusal) -> &'static str {
    match refusal {
        Refusal::Conflict => "conflict",
        Refusal::BadHistory => "bad_history",
        Refusal::Missing => "missing",
        Refusal::Deleted => "deleted",
        Refusal::GenerationLimit => "generation",
    }
}

fn push_writes(text: &mut String, writes: &[Result<RevId, Refusal>]) -> Result<(), AllocError> {
    for write in writes {
        match write {
            Ok(rev) => write!(text, " {}", *rev)?,
            Err(refused) => write!(text, " {}", refusal(*refused))?,
        }
    }
    Ok(())
}

/// Of each document that was named the leaves that went.
fn push_purged(text: &mut String, documents: &[AskedRevisions]) -> Result<(), AllocError> {
    for document in documents {
        write!(text, " [{}", document.id.as_str())?;
        push_names(text, &document.revisions)?;
    }
    Ok(())
}

fn push_names(text: &mut String, revs: &[RevId]) -> Result<(), AllocError> {
    for rev in revs {
        write!(text, " {}", *rev)?;
    }
    text.push(']')
}

/// The last numbers, and each document with its update number and its revisions; `-` after a revision whose body is gone.
pub(crate) fn push_content(text: &mut String, version: &Version) -> Result<(), AllocError> {
    let database = version.database();
    write!(
        text,
        "update {} purge {} ",
        database.documents().update_seq(),
        database.purges().purge_seq()
    )?;
    for (id, stored) in database.documents().iter() {
        push_document(text, id, stored.get())?;
    }
    Ok(())
}

fn push_document(text: &mut String, id: &DocId, record: &Record) -> Result<(), AllocError> {
    write!(text, "[{} {}", id.as_str(), record.seq())?;
    for node in record.tree().nodes() {
        push_node(text, node)?;
    }
    text.push(']')
}

fn push_node(text: &mut String, node: &Node) -> Result<(), AllocError> {
    write!(text, " {}", node.rev)?;
    if node.body.is_none() {
        text.push('-')?;
    }
    Ok(())
}
