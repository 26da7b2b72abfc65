//! A version of many documents.

use commands::{Command, Edit, MAX_PLACES, Seat};
use document_id::DocId;
use json_profile::Body;
use snapshots::Version;
use std::alloc::Global;
use std::sync::Arc;

/// The version of so many documents, if memory is not refused.
pub(crate) fn written(alloc: Global, documents: u64) -> Option<Version> {
    let mut version = Version::empty(alloc);
    for number in 0..documents {
        version = with_document(alloc, &version, number)?;
    }
    Some(version)
}

/// The version after the first edit of one document more.
fn with_document(alloc: Global, version: &Version, number: u64) -> Option<Version> {
    if version.place() >= u64::from(MAX_PLACES) {
        return None;
    }
    let seat = Seat::new(0, version.next_call(0))?;
    let command = first_edit(alloc, number)?;
    version.act(seat, &command).ok()
}

fn first_edit(alloc: Global, number: u64) -> Option<Command> {
    let edit = Edit {
        id: id_of(alloc, number)?,
        named: None,
        deleted: false,
        body: Arc::new(alloc, Body::empty(alloc)).ok()?,
    };
    Some(Command::edit(edit))
}

fn id_of(alloc: Global, number: u64) -> Option<DocId> {
    let text = format!(in alloc; "document-{number}").ok()?;
    DocId::new(alloc, text.as_str()).ok()
}
