//! The commands of writers.

use commands::{Command, Edit};
use document_id::DocId;
use json_profile::{Body, MAX_NESTING, read};
use revision_id::RevId;
use snapshots::Version;
use std::alloc::Global;
use std::sync::Arc;

/// An edit of a document of a number over what wins in a version, or its deletion.
pub(crate) fn next_edit(
    alloc: Global,
    version: &Version,
    document: u64,
    deleted: bool,
) -> Option<Command> {
    let text = format!(in alloc; "{document}").ok()?;
    let id = DocId::new(alloc, text.as_str()).ok()?;
    let named = winner(version, &id);
    let edit = Edit {
        id,
        named,
        deleted,
        body: Arc::new(alloc, body(alloc, version.place())?).ok()?,
    };
    Some(Command::edit(edit))
}

/// The revision of a document that wins.
fn winner(version: &Version, id: &DocId) -> Option<RevId> {
    Some(version.database().documents().get(id)?.tree().winner().rev)
}

/// A body with a number.
fn body(alloc: Global, number: u64) -> Option<Body> {
    let text = format!(in alloc; "{{\"place\":{number}}}").ok()?;
    let json = read(alloc, text.as_bytes(), MAX_NESTING).ok()?;
    json.object_without_specials(alloc).ok()
}
