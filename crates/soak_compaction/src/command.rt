//! The commands of acts.

use crate::act::{Act, Generation};
use commands::{AskedRevisions, Command, Edit, NamedRevisions};
use document_id::DocId;
use json_profile::{Body, MAX_NESTING, read};
use revision_id::RevId;
use std::alloc::Global;
use std::sync::Arc;

/// The revision of a new document with the body `{}`.
const FIRST: &str = "1-b7a5841aeb59f1be5d0e27b640827094";

/// The revision over that one, with the body `{"n":1}`.
const SECOND: &str = "2-da7da3d3a3fd852f31bbfc77446d4d45";

/// The body of the second revision.
const NEXT_BODY: &str = "{\"n\":1}";

/// The number in the id of the first of many documents. All have as many digits, so their ids ascend.
const FIRST_ID: usize = 1000;

/// The revision of a generation.
pub(crate) fn revision(generation: Generation) -> Option<RevId> {
    match generation {
        Generation::First => RevId::parse(FIRST).ok(),
        Generation::Second => RevId::parse(SECOND).ok(),
    }
}

/// The document of a letter.
pub(crate) fn id_of(alloc: Global, letter: char) -> Option<DocId> {
    let text = format!(in alloc; "{letter}").ok()?;
    DocId::new(alloc, text.as_str()).ok()
}

/// The document of a number.
pub(crate) fn numbered(alloc: Global, number: usize) -> Option<DocId> {
    let text = format!(in alloc; "{number}").ok()?;
    DocId::new(alloc, text.as_str()).ok()
}

/// The command of an act that writes one.
pub(crate) fn command_of(alloc: Global, act: Act) -> Option<Command> {
    match act {
        Act::Put(letter) => put_all(alloc, id_of(alloc, letter)?),
        Act::Edit(letter) => edit(alloc, id_of(alloc, letter)?),
        Act::Purge(letter) => purge(alloc, id_of(alloc, letter)?, revision(Generation::First)?),
        Act::PutMany(count) => put_many(alloc, count),
        Act::PurgeMany(count) => purge_many(alloc, count),
        Act::KeepPurges(limit) => Command::set_purged_limit(limit),
        Act::Compact | Act::Look | Act::Find(..) => None,
    }
}

fn put_all(alloc: Global, id: DocId) -> Option<Command> {
    Some(Command::edit(new_document(alloc, id)?))
}

/// The first edit of a document, with the body `{}`.
fn new_document(alloc: Global, id: DocId) -> Option<Edit> {
    Some(Edit {
        id,
        named: None,
        deleted: false,
        body: Arc::new(alloc, Body::empty(alloc)).ok()?,
    })
}

fn edit(alloc: Global, id: DocId) -> Option<Command> {
    edit_over(alloc, id, revision(Generation::First), NEXT_BODY)
}

/// An edit over the revision that is named, with the body of that text.
pub(crate) fn edit_over(
    alloc: Global,
    id: DocId,
    named: Option<RevId>,
    body: &str,
) -> Option<Command> {
    let edit = Edit {
        id,
        named,
        deleted: false,
        body: Arc::new(alloc, body_of(alloc, body)?).ok()?,
    };
    Some(Command::edit(edit))
}

fn body_of(alloc: Global, text: &str) -> Option<Body> {
    let json = read(alloc, text.as_bytes(), MAX_NESTING).ok()?;
    json.object_without_specials(alloc).ok()
}

/// A purge of one revision.
pub(crate) fn purge(alloc: Global, id: DocId, revision: RevId) -> Option<Command> {
    let asked = Vec::from_array(alloc, [asked(alloc, id, revision)?]).ok()?;
    Command::purge(NamedRevisions::new(asked)?)
}

fn asked(alloc: Global, id: DocId, revision: RevId) -> Option<AskedRevisions> {
    Some(AskedRevisions {
        id,
        revisions: Vec::from_array(alloc, [revision]).ok()?,
    })
}

fn put_many(alloc: Global, count: usize) -> Option<Command> {
    let mut edits = Vec::new(alloc);
    for number in FIRST_ID..FIRST_ID.saturating_add(count) {
        edits
            .push(new_document(alloc, numbered(alloc, number)?)?)
            .ok()?;
    }
    Command::edits(edits)
}

fn purge_many(alloc: Global, count: usize) -> Option<Command> {
    let first = revision(Generation::First)?;
    let mut documents = Vec::new(alloc);
    for number in FIRST_ID..FIRST_ID.saturating_add(count) {
        documents
            .push(asked(alloc, numbered(alloc, number)?, first)?)
            .ok()?;
    }
    Command::purge(NamedRevisions::new(documents)?)
}
