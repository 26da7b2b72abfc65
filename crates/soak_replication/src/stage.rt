//! What happens before the end of a history, and after it.

use crate::documents::{Documents, Ids, LOSER, ROOT, WINNER};
use crate::end::End;
use crate::flaw::{Flaw, Flawed};
use crate::print::{print_all_leaves, print_end, print_sent, print_told};
use crate::run::{new_worker, run};
use commands::Merge;
use document_id::DocId;
use json_profile::Body;
use replicator::Peer;
use revision_id::RevId;
use std::alloc::{AllocError, Global};
use std::io;
use std::sync::Arc;

/// A leaf over the one that doesn't win.
const NEWER: &str = "3-dddddddddddddddddddddddddddddddd";

/// What is written before a replication runs.
#[derive(Clone, Copy)]
pub(crate) enum Stage {
    /// A document with two leaves, a deleted one and one with a single revision.
    First,
    /// A revision over one of the two leaves, and one more document.
    Next,
}

impl Stage {
    fn documents(self, alloc: Global) -> Option<Vec<Merge>> {
        match self {
            Stage::First => first(alloc),
            Stage::Next => next(alloc),
        }
    }
}

fn first(alloc: Global) -> Option<Vec<Merge>> {
    let documents = [
        document(alloc, "a", &[LOSER, ROOT], false)?,
        document(alloc, "a", &[WINNER, ROOT], false)?,
        document(alloc, "b", &[LOSER, ROOT], true)?,
        document(alloc, "c", &[ROOT], false)?,
    ];
    Vec::from_array(alloc, documents).ok()
}

fn next(alloc: Global) -> Option<Vec<Merge>> {
    let documents = [
        document(alloc, "a", &[NEWER, LOSER, ROOT], false)?,
        document(alloc, "d", &[ROOT], false)?,
    ];
    Vec::from_array(alloc, documents).ok()
}

/// A document with these revisions, the newest first. Its body is `{}`.
fn document(alloc: Global, id: &str, revisions: &[&str], deleted: bool) -> Option<Merge> {
    let id = DocId::new(alloc, id).ok()?;
    let mut path = Vec::with_capacity(alloc, revisions.len()).ok()?;
    for revision in revisions {
        path.push(RevId::parse(revision).ok()?).ok()?;
    }
    let body = Arc::new(alloc, Body::empty(alloc)).ok()?;
    Merge::new(id, path, deleted, body)
}

/// Writes the documents of a stage at the source, has a new worker replicate, and prints what came to
/// the target. Both ends come back.
pub(crate) fn tell_stage<S: End + Drop, T: End + Drop>(
    rt: &impl Print,
    alloc: Global,
    stage: Stage,
    source: S,
    target: T,
) -> io::Result<(S, T)> {
    let ids = Ids::new(alloc, Documents::Conflict).ok_or(AllocError)?;
    let mut source = Flawed::new(source, Flaw::None);
    let mut target = Flawed::new(target, Flaw::None);
    write_documents(alloc, stage, &mut source)?;
    let mut worker = new_worker(alloc, Documents::Conflict, &ids)?;
    let told = run(alloc, &mut worker, &mut source, &mut target);
    print_told(rt, told)?;
    print_sent(rt, target.sent())?;
    print_end(rt, "source", &ids, source.peer().version())?;
    print_end(rt, "target", &ids, target.peer().version())?;
    print_all_leaves(rt, "target", target.peer().version())?;
    Ok((source.into_peer(), target.into_peer()))
}

/// Writes the documents. An end that is alone is refused nothing but memory.
fn write_documents<S: End>(
    alloc: Global,
    stage: Stage,
    source: &mut Flawed<S>,
) -> Result<(), AllocError> {
    let documents = stage.documents(alloc).ok_or(AllocError)?;
    match source.bulk(alloc, documents.as_slice()) {
        Ok(()) => Ok(()),
        Err(_fault) => Err(AllocError),
    }
}
