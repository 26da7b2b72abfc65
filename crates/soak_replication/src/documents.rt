//! The documents that a source has.

use commands::{Command, Edit, Merge};
use document_id::{DocId, DocIds};
use json_profile::Body;
use revision_id::RevId;
use std::alloc::{AllocError, Global};
use std::sync::Arc;

/// The id of the document with two leaves.
const DOCUMENT: &str = "d";

/// The ids of three documents, of which the second is brought.
const THREE: [&str; 3] = ["a", "b", "c"];

/// The id of the checkpoints.
const CHECKPOINT: &str = "r";

/// The revision that leaves are written over.
pub(crate) const ROOT: &str = "1-aaaaaaaaaaaaaaaaaaaaaaaaaaaaaaaa";

/// The leaf that wins.
pub(crate) const WINNER: &str = "2-cccccccccccccccccccccccccccccccc";

/// The other leaf.
pub(crate) const LOSER: &str = "2-bbbbbbbbbbbbbbbbbbbbbbbbbbbbbbbb";

/// The documents that a source has.
#[derive(Clone, Copy)]
pub(crate) enum Documents {
    /// One with two leaves, which is brought as all are.
    Conflict,
    /// Three, of which one is brought alone.
    Three,
}

impl Documents {
    /// The id of the one that is brought.
    fn brought(self) -> &'static str {
        match self {
            Documents::Conflict => DOCUMENT,
            Documents::Three => THREE[1],
        }
    }

    /// What brings them to the source: both leaves from elsewhere, the three by their first edits. All bodies are `{}`.
    pub(crate) fn command(self, alloc: Global) -> Option<Command> {
        match self {
            Documents::Conflict => both_leaves(alloc),
            Documents::Three => three(alloc),
        }
    }
}

/// The ids of the document that is brought and of the checkpoints.
#[derive(Drop)]
pub(crate) struct Ids {
    pub(crate) document: DocId,
    pub(crate) checkpoint: DocId,
}

impl Ids {
    pub(crate) fn new(alloc: Global, documents: Documents) -> Option<Ids> {
        Some(Ids {
            document: DocId::new(alloc, documents.brought()).ok()?,
            checkpoint: DocId::new(alloc, CHECKPOINT).ok()?,
        })
    }

    /// The document alone.
    pub(crate) fn listed(&self, alloc: Global) -> Result<DocIds, AllocError> {
        DocIds::named(alloc, &[self.document.as_str()])
    }
}

fn both_leaves(alloc: Global) -> Option<Command> {
    let leaves = Vec::from_array(alloc, [leaf(alloc, LOSER)?, leaf(alloc, WINNER)?]).ok()?;
    Command::merges(leaves)
}

/// A revision over the root.
fn leaf(alloc: Global, revision: &str) -> Option<Merge> {
    let path = [RevId::parse(revision).ok()?, RevId::parse(ROOT).ok()?];
    merge(alloc, DOCUMENT, Vec::from_array(alloc, path).ok()?)
}

fn three(alloc: Global) -> Option<Command> {
    let [first, second, third] = THREE;
    let edits = [
        first_edit(alloc, first)?,
        first_edit(alloc, second)?,
        first_edit(alloc, third)?,
    ];
    Command::edits(Vec::from_array(alloc, edits).ok()?)
}

/// The first edit of a document.
fn first_edit(alloc: Global, id: &str) -> Option<Edit> {
    Some(Edit {
        id: DocId::new(alloc, id).ok()?,
        named: None,
        deleted: false,
        body: Arc::new(alloc, Body::empty(alloc)).ok()?,
    })
}

fn merge(alloc: Global, id: &str, path: Vec<RevId>) -> Option<Merge> {
    let id = DocId::new(alloc, id).ok()?;
    let body = Arc::new(alloc, Body::empty(alloc)).ok()?;
    Merge::new(id, path, false, body)
}
